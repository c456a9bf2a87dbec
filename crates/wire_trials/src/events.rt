// Byte strings, and what they are read as.
use crate::outline::{Outline, in_short};
use std::process::Abort;
use wire::garbled::Garbled;
use wire_out::answer::Put;
use wire_out::event::{write_came, write_get, write_has};

const EVENTS: [(&[u8], Outline); 10] = [
    (
        b"\0\0\x07\0\0\0\0\0\0\0\x41\x42",
        Outline::Put { key: 7, value: 2 },
    ),
    (b"\0\0\0\0\0\0\0\0\0\0", Outline::Put { key: 0, value: 0 }),
    (b"\x01\x01\x02\0\0\0\0\0\0", Outline::Get { key: 513 }),
    (
        b"\x01\xff\xff\xff\xff\xff\xff\xff\xff",
        Outline::Get {
            key: 18446744073709551615,
        },
    ),
    (
        b"\x02\x03\0\0\0\0\0\0\0\x01\x05\0\0\0\0\0\0\0\0\0\x09\0\0\0\0\0\0\0\x58",
        Outline::Came {
            from: 3,
            counts: 1,
            value: 1,
        },
    ),
    (
        b"\x02\x03\0\0\0\0\0\0\0\0\0\x09\0\0\0\0\0\0\0",
        Outline::Came {
            from: 3,
            counts: 0,
            value: 0,
        },
    ),
    (
        b"\x03\x01\0\0\0\0\0\0\0\0",
        Outline::Has {
            replica: 1,
            counts: 0,
        },
    ),
    (
        b"\x03\x01\0\0\0\0\0\0\0\x01\x04\0\0\0\0\0\0\0\x01\x06\0\0\0\0\0\0\0\0",
        Outline::Has {
            replica: 1,
            counts: 2,
        },
    ),
    (
        b"\x03\xff\xff\xff\xff\xff\xff\xff\xff\x01\xff\xff\xff\xff\xff\xff\xff\xff\0",
        Outline::Has {
            replica: 18446744073709551615,
            counts: 1,
        },
    ),
    (b"\x04", Outline::Tell),
];

// Bytes that are no event, and the place from which on they are not.
const UNKNOWN_OR_LEFT_OVER: [(&[u8], usize); 8] = [
    (b"", 0),
    (b"\x05", 0),
    (b"\xff\0\0", 0),
    (b"\x01\x07\0\0\0\0\0\0\0\0", 9),
    (b"\x03\x01\0\0\0\0\0\0\0\0\0", 10),
    (
        b"\x03\x01\0\0\0\0\0\0\0\x01\x04\0\0\0\0\0\0\0\0\x01\x02",
        19,
    ),
    (b"\x04\x04", 1),
    (b"\x04\0\0\0", 1),
];

const CUT_SHORT: [(&[u8], usize); 12] = [
    (b"\0", 1),
    (b"\0\0", 2),
    (b"\0\0\x07\0\0\0\0\0\0", 9),
    (b"\x01", 1),
    (b"\x01\x07\0\0\0\0\0\0", 8),
    (b"\x02\x03\0\0\0\0\0\0", 8),
    (b"\x02\x03\0\0\0\0\0\0\0", 9),
    (b"\x02\x03\0\0\0\0\0\0\0\x01\x05\0", 12),
    (b"\x02\x03\0\0\0\0\0\0\0\0", 10),
    (b"\x02\x03\0\0\0\0\0\0\0\0\0\x09", 12),
    (b"\x03\x01\0\0\0\0\0\0\0", 9),
    (b"\x03\x01\0\0\0\0\0\0\0\x01\x04\0\0\0\0\0\0\0", 18),
];

const OTHER_FORM_OR_MARKER: [(&[u8], usize); 6] = [
    (b"\0\x01\x07\0\0\0\0\0\0\0", 1),
    (b"\x02\x03\0\0\0\0\0\0\0\0\x01\x09\0\0\0\0\0\0\0", 10),
    (b"\x02\x03\0\0\0\0\0\0\0\x02", 9),
    (b"\x02\x03\0\0\0\0\0\0\0\x01\x05\0\0\0\0\0\0\0\x03\0", 18),
    (b"\x03\x01\0\0\0\0\0\0\0\xff", 9),
    (b"\x03\x01\0\0\0\0\0\0\0\x01\x04\0\0\0\0\0\0\0\x02", 18),
];

fn all_garbled(rt: &impl Abort, rows: &[(&[u8], usize)]) {
    for (bytes, place) in rows {
        assert_eq!(rt; in_short(bytes), Err(Garbled { place: *place }));
    }
}

#[test]
fn events(rt: HostRuntime) {
    for (bytes, event) in &EVENTS {
        assert_eq!(rt; in_short(bytes), Ok(*event));
    }
}

#[test]
fn garbled(rt: HostRuntime) {
    all_garbled(&rt, &UNKNOWN_OR_LEFT_OVER);
    all_garbled(&rt, &CUT_SHORT);
    all_garbled(&rt, &OTHER_FORM_OR_MARKER);
}

#[test]
fn a_hundred_counts(rt: HostRuntime) {
    let mut out = [9; 911];
    assert_eq!(rt; write_has(&mut out, 5, &[1; 100]), Some(910));
    assert_eq!(rt;
        in_short(&out[0..910]),
        Ok(Outline::Has {
            replica: 5,
            counts: 100
        })
    );
    assert_eq!(rt; in_short(&out), Err(Garbled { place: 910 }));
    assert_eq!(rt; in_short(&out[0..909]), Err(Garbled { place: 909 }));
}

#[test]
fn the_longest_put(rt: HostRuntime) {
    let put = Put {
        from: 15,
        seen: &[4294967295; 16],
        key: 4095,
        value: &[255; 64],
    };
    let mut out = [9; 227];
    assert_eq!(rt; write_came(&mut out[0..226], put), None);
    assert_eq!(rt; out, [9; 227]);
    assert_eq!(rt; write_came(&mut out, put), Some(227));
    assert_eq!(rt;
        in_short(&out),
        Ok(Outline::Came {
            from: 15,
            counts: 16,
            value: 64
        })
    );
}

#[test]
fn the_rest_is_left(rt: HostRuntime) {
    let mut out = [9; 12];
    assert_eq!(rt; write_get(&mut out, 258), Some(9));
    assert_eq!(rt; out, [1, 2, 1, 0, 0, 0, 0, 0, 0, 9, 9, 9]);
}
