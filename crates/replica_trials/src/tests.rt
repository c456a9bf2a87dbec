// Each trial by value and by bytes.
use crate::ways::{ByBytes, ByValue, Calls, TELL};
use endpoint::{ANSWER_MOST, call};
use memory::{Limits, open};
use std::process::Abort;
use std::test::Fail;

// Two replicas, one key, a log of one, one that may wait.
const SMALL: Limits = Limits {
    replicas: 2,
    keys: 1,
    log: 1,
    waiting: 1,
};

// A put of a value of one byte at key 0.
fn put(value: u8) -> [u8; 11] {
    [0, 0, 0, 0, 0, 0, 0, 0, 0, 0, value]
}

// A put of replica `from` comes, whose maker had seen these counts before it.
fn came(from: u8, first: u8, second: u8, value: u8) -> [u8; 38] {
    let mut bytes = [0; 38];
    bytes[0] = 2;
    bytes[1] = from;
    bytes[9] = 1;
    bytes[10] = first;
    bytes[18] = 1;
    bytes[19] = second;
    bytes[37] = value;
    bytes
}

// Replica `from` has these counts.
fn has(from: u8, first: u8, second: u8) -> [u8; 28] {
    let mut bytes = [0; 28];
    bytes[0] = 3;
    bytes[1] = from;
    bytes[9] = 1;
    bytes[10] = first;
    bytes[18] = 1;
    bytes[19] = second;
    bytes
}

fn full<C: Calls>(rt: &impl Abort) -> Result<(), Fail> {
    let mut mem = [0; 608];
    assert!(rt; open(&mut mem, SMALL, 0).is_ok());
    assert!(rt; C::refusal(&mut mem, &put(7))? == None);
    assert!(rt; C::refusal(&mut mem, &put(8))? == Some((4, 0)));
    assert!(rt; C::refusal(&mut mem, &came(1, 0, 1, 5))? == None);
    assert!(rt; C::refusal(&mut mem, &came(1, 0, 2, 6))? == Some((5, 0)));
    assert!(rt; C::refusal(&mut mem, &came(0, 1, 0, 6))? == Some((3, 0)));
    assert!(rt; C::counts(&mut mem) == Some((1, 0)));
    assert!(rt; C::value(&mut mem) == Some((0, 7, 1)));
    assert!(rt; C::refusal(&mut mem, &came(1, 0, 0, 4))? == None);
    assert!(rt; C::counts(&mut mem) == Some((1, 2)));
    assert!(rt; C::value(&mut mem) == Some((1, 5, 2)));
    Ok(())
}

fn asked<C: Calls>(rt: &impl Abort) -> Result<(), Fail> {
    let mut mem = [0; 608];
    assert!(rt; open(&mut mem, SMALL, 0).is_ok());
    assert!(rt; C::only_put(&mut mem, &put(7)) == Some((0, 7, 1)));
    assert!(rt; C::only_put(&mut mem, &has(1, 0, 0)) == Some((0, 7, 1)));
    assert!(rt; C::refusal(&mut mem, &has(1, 2, 0))? == Some((3, 0)));
    assert!(rt; C::refusal(&mut mem, &put(8))? == Some((4, 0)));
    assert!(rt; C::refusal(&mut mem, &has(1, 1, 0))? == None);
    assert!(rt; C::refusal(&mut mem, &put(8))? == None);
    assert!(rt; C::counts(&mut mem) == Some((2, 0)));
    assert!(rt; C::value(&mut mem) == Some((0, 8, 2)));
    Ok(())
}

fn foreign<C: Calls>(rt: &impl Abort) -> Result<(), Fail> {
    let mut mem = [7; 600];
    assert!(rt; C::refusal(&mut mem, &TELL)? == Some((2, 0)));
    assert!(rt; C::refusal(&mut [], &TELL)? == Some((2, 0)));
    assert!(rt; mem.iter().all(|x| *x == 7));
    Ok(())
}

fn no_event<C: Calls>(rt: &impl Abort) -> Result<(), Fail> {
    let mut mem = [0; 608];
    assert!(rt; open(&mut mem, SMALL, 1).is_ok());
    assert!(rt; C::refusal(&mut mem, &[1, 0, 0])? == Some((1, 3)));
    assert!(rt; C::counts(&mut mem) == Some((0, 0)));
    Ok(())
}

mod by_value {
    use super::ByValue;
    use std::test::Fail;

    #[test]
    fn ready_is_taken_however_full_all_is(rt: HostRuntime) -> Result<(), Fail> {
        super::full::<ByValue>(&rt)
    }

    #[test]
    fn asked_until_the_other_has_it(rt: HostRuntime) -> Result<(), Fail> {
        super::asked::<ByValue>(&rt)
    }

    #[test]
    fn memory_of_no_replica(rt: HostRuntime) -> Result<(), Fail> {
        super::foreign::<ByValue>(&rt)
    }

    #[test]
    fn bytes_of_no_event(rt: HostRuntime) -> Result<(), Fail> {
        super::no_event::<ByValue>(&rt)
    }
}

mod by_bytes {
    use super::ByBytes;
    use std::test::Fail;

    #[test]
    fn ready_is_taken_however_full_all_is(rt: HostRuntime) -> Result<(), Fail> {
        super::full::<ByBytes>(&rt)
    }

    #[test]
    fn asked_until_the_other_has_it(rt: HostRuntime) -> Result<(), Fail> {
        super::asked::<ByBytes>(&rt)
    }

    #[test]
    fn memory_of_no_replica(rt: HostRuntime) -> Result<(), Fail> {
        super::foreign::<ByBytes>(&rt)
    }

    #[test]
    fn bytes_of_no_event(rt: HostRuntime) -> Result<(), Fail> {
        super::no_event::<ByBytes>(&rt)
    }

    #[test]
    fn no_room_for_an_answer(rt: HostRuntime) {
        use crate::ways::Calls;
        let mut mem = [0; 608];
        assert!(rt; super::open(&mut mem, super::SMALL, 0).is_ok());
        assert!(rt;
            super::call(&mut mem, &super::put(7), &mut [0; super::ANSWER_MOST - 1]).is_none()
        );
        assert!(rt; ByBytes::counts(&mut mem) == Some((0, 0)));
    }
}
