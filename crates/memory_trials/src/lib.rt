// Opening at the edges of every limit, in memory that is too short, enough and longer than needed; and a put in the words of a slot.
#![tactic(auto)]

#[cfg(test)]
mod tests {
    use memory::{Limits, limits_of, open};
    use puts::words::Head;
    use puts::{Clock, Put, Text};
    use slots::{clear_slot, copy_slot, read_head, read_slot, write_slot};
    use std::alloc::Global;
    use std::process::Abort;
    use std::test::Fail;

    // What fills the memory before.
    const OLD: u64 = 7;

    // Replicas, keys, log, waiting, and a replica's number.
    type Case = (usize, usize, usize, usize, usize);

    // Those that can be opened, and those that can't.
    const GOOD: [Case; 10] = [
        (1, 1, 1, 0, 0),
        (16, 1, 1, 0, 15),
        (3, 1, 1, 0, 2),
        (3, 4096, 1, 0, 2),
        (3, 2, 1, 0, 1),
        (3, 2, 1024, 0, 1),
        (3, 2, 2, 0, 0),
        (3, 2, 2, 1, 0),
        (3, 2, 2, 1024, 0),
        (16, 4096, 1024, 1024, 15),
    ];

    const BAD: [Case; 11] = [
        (0, 1, 1, 0, 0),
        (1, 1, 1, 0, 1),
        (16, 1, 1, 0, 16),
        (17, 1, 1, 0, 0),
        (3, 0, 1, 0, 0),
        (3, 4097, 1, 0, 2),
        (3, 2, 0, 0, 0),
        (3, 2, 1025, 0, 1),
        (3, 2, 2, 1025, 0),
        (17, 17, 17, 17, 17),
        (0, 0, 0, 0, 0),
    ];

    fn all_old(mem: &[u64]) -> bool {
        mem.iter().all(|x| *x == OLD)
    }

    // The words that such a replica takes.
    fn words(limits: &Limits) -> usize {
        let slots = limits
            .keys
            .wrapping_add(limits.log)
            .wrapping_add(limits.waiting);
        slots.wrapping_mul(32).wrapping_add(512)
    }

    fn limits_in(case: Case) -> Limits {
        let (replicas, keys, log, waiting, _me) = case;
        Limits {
            replicas,
            keys,
            log,
            waiting,
        }
    }

    // Opened in `len` words: the header says the limits, and the rest is as it was.
    fn opens(rt: &impl Abort, heap: Global, case: Case, len: usize) -> Result<(), Fail> {
        let limits = limits_in(case);
        let mut mem = vec![in heap; OLD; len]?;
        open(mem.as_mut_slice(), limits, case.4)?;
        let (found, who) = limits_of(mem.as_slice())?;
        assert!(rt; found == limits && who == case.4);
        let n = words(&limits);
        assert!(rt; n <= len);
        assert!(rt; all_old(&mem.as_slice()[n..len]));
        Ok(())
    }

    // Refused, and all is as it was.
    fn refuses(rt: &impl Abort, heap: Global, case: Case, len: usize) -> Result<(), Fail> {
        let mut mem = vec![in heap; OLD; len]?;
        assert!(rt; open(mem.as_mut_slice(), limits_in(case), case.4).is_err());
        assert!(rt; all_old(mem.as_slice()));
        Ok(())
    }

    #[test]
    fn edges(rt: HostRuntime) -> Result<(), Fail> {
        for good in GOOD {
            let n = words(&limits_in(good));
            opens(&rt, rt.alloc(), good, n)?;
            opens(&rt, rt.alloc(), good, n.wrapping_add(40))?;
            refuses(&rt, rt.alloc(), good, n.wrapping_sub(1))?;
        }
        for bad in BAD {
            let n = words(&limits_in(bad));
            refuses(&rt, rt.alloc(), bad, n)?;
            refuses(&rt, rt.alloc(), bad, n.wrapping_add(40))?;
            refuses(&rt, rt.alloc(), bad, n.wrapping_sub(1))?;
        }
        Ok(())
    }

    #[test]
    fn no_header(rt: HostRuntime) {
        assert!(rt; limits_of(&[]).is_err());
        assert!(rt; limits_of(&[0; 600]).is_err());
        assert!(rt; limits_of(&[1; 511]).is_err());
        assert!(rt; limits_of(&[OLD; 600]).is_err());
    }

    // A put that differs in every field from an empty slot.
    fn some_put(value: &[u8]) -> Option<Put> {
        let mut seen = Clock::new();
        seen.bump(2);
        seen.bump(2);
        seen.bump(15);
        Some(Put {
            from: 2,
            seen,
            key: 9,
            value: Text::from_bytes(value)?,
        })
    }

    #[test]
    fn a_slot(rt: HostRuntime) -> Result<(), Fail> {
        let mut mem = [0; 640];
        let p = some_put(b"a value of some bytes, more than one word").ok_or("too long")?;
        write_slot(&mut mem, 1, &p);
        copy_slot(&mut mem, 1, 3);
        clear_slot(&mut mem, 1);
        assert!(rt; read_slot(&mem, 1).is_none() && read_slot(&mem, 4).is_none());
        let q = read_slot(&mem, 3).ok_or("no put")?;
        assert!(rt; q.from == 2 && q.key == 9 && q.seen.count(2) == 2 && q.seen.count(15) == 1);
        assert!(rt; q.value == p.value && !q.later(&p) && q.number() == 3);
        let Head { from, number } = read_head(&mem, 3).ok_or("no head")?;
        assert!(rt; from == 2 && number == 3);
        Ok(())
    }
}
