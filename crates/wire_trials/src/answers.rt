// Answers, written and read.
use std::test::Fail;
use wire::answer::Answer as Read;
use wire::answers::read_answer;
use wire::event::Refusal;
use wire_out::answer::{Answer, Put};
use wire_out::answers::{
    add_put, answer_len, begin_puts, end_puts, write_answer, write_none, write_puts, write_refused,
};

const PUT: Put<'static> = Put {
    from: 1,
    seen: &[3, 4],
    key: 2,
    value: &[104, 105],
};

#[test]
fn refused(rt: HostRuntime) {
    let mut out = [9; 18];
    let refusal = Refusal {
        number: 1,
        place: 300,
    };
    assert_eq!(rt; write_refused(&mut out, refusal), Some(17));
    assert_eq!(rt;
        out,
        [0, 1, 0, 0, 0, 0, 0, 0, 0, 44, 1, 0, 0, 0, 0, 0, 0, 9]
    );
    assert_eq!(rt; refusal_in(&out[0..17]), Some((1, 300)));
    assert_eq!(rt; refusal_in(&out), None);
}

// The number of the refusal that the bytes are, and its place.
fn refusal_in(bytes: &[u8]) -> Option<(u64, u64)> {
    match read_answer(bytes)? {
        Read::Refused { refusal } => Some((refusal.number, refusal.place)),
        _ => None,
    }
}

// How many puts follow one another, if the bytes are puts.
fn count(bytes: &[u8]) -> Option<usize> {
    let Read::Puts { puts } = read_answer(bytes)? else {
        return None;
    };
    let mut n: usize = 0;
    for put in puts {
        put.ok()?;
        n = n.checked_add(1)?;
    }
    Some(n)
}

#[test]
fn puts_whole_and_by_parts(rt: HostRuntime) -> Result<(), Fail> {
    let mut whole = [9; 100];
    let puts = [PUT, PUT];
    assert_eq!(rt; write_puts(&mut whole[0..95], &puts), None);
    assert_eq!(rt; write_puts(&mut whole, &puts), Some(96));
    let mut parts = [9; 100];
    let at = begin_puts(&mut parts).ok_or("no room")?;
    let at = add_put(&mut parts, at, PUT).ok_or("no room")?;
    let at = add_put(&mut parts, at, PUT).ok_or("no room")?;
    assert_eq!(rt; add_put(&mut parts, at, PUT), None);
    assert_eq!(rt; end_puts(&mut parts, at), Some(96));
    assert!(rt; whole == parts);
    assert_eq!(rt; count(&whole[0..96]), Some(2));
    assert_eq!(rt; count(&whole), None);
    assert_eq!(rt; count(&[1, 0]), Some(0));
    Ok(())
}

#[test]
fn value(rt: HostRuntime) {
    let mut out = [9; 49];
    assert_eq!(rt;
        write_answer(&mut out, Answer::Value { put: Some(PUT) }),
        Some(49)
    );
    assert_eq!(rt; key(&out), Ok(Some(2)));
    assert_eq!(rt; write_none(&mut out), Some(2));
    assert_eq!(rt; key(&out[0..2]), Ok(None));
    assert_eq!(rt; key(&out), Err(NoValue));
}

// Bytes that are no answer of none or one.
#[derive(Clone, Copy, Debug, PartialEq, Eq)]
struct NoValue;

// The key of the put that stands at a key, if one does.
fn key(bytes: &[u8]) -> Result<Option<u64>, NoValue> {
    match read_answer(bytes) {
        Some(Read::Value { put }) => Ok(put.map(|put| put.key)),
        _ => Err(NoValue),
    }
}

#[test]
fn clock(rt: HostRuntime) -> Result<(), Fail> {
    let mut out = [9; 20];
    let answer = Answer::Clock { clock: &[7, 0] };
    assert_eq!(rt; answer_len(answer), 20);
    assert_eq!(rt; write_answer(&mut out, answer), Some(20));
    let Some(Read::Clock { clock }) = read_answer(&out) else {
        return Err(Fail::new("no clock"));
    };
    assert_eq!(rt;
        clock.counts(2),
        Some([7, 0, 0, 0, 0, 0, 0, 0, 0, 0, 0, 0, 0, 0, 0, 0])
    );
    assert_eq!(rt; clock.counts(1), None);
    assert_eq!(rt; clock.counts(17), None);
    Ok(())
}
