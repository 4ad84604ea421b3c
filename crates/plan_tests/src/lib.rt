// Good and damaged plans, with the refusal and the place of each.
#![tactic(auto)]

#[cfg(test)]
mod tests {
    use plan::checking::check;
    use plan::timetable::Timetable;
    use std::alloc::{AllocError, Global};
    use std::test::Fail;

    // Number and place of the refusal, if the plan is refused.
    fn refusal_of(words: &[u64]) -> Option<(u64, u64)> {
        check(words)
            .err()
            .map(|refusal| (refusal.number(), refusal.place()))
    }

    // A plan of so many piers, legs and walks. The legs have a run each, and the last stand first, so that no row is in
    // order from the start.
    fn plan_of(heap: Global, piers: u64, legs: u64, walks: u64) -> Result<Vec<u64>, AllocError> {
        let mut words = vec![in heap; piers, legs, walks]?;
        for _ in 0..piers {
            words.push(2)?;
        }
        for i in 0..legs {
            words.extend_from_slice(&[legs - i, 7, 0, 0, 10, 20])?;
        }
        for _ in 0..walks {
            words.extend_from_slice(&[0, 0, 5])?;
        }
        Ok(words)
    }

    // The number of the plan that is changed, to what, and the refusal.
    type Case = (usize, u64, Option<(u64, u64)>);

    // A plan of 2 piers, 3 legs and 2 walks: counts at 0, changes at 3, legs at 5, 11 and 17, walks at 23 and 26.
    const CASES: [Case; 33] = [
        (3, 4294967295, None),
        (3, 4294967296, Some((2, 1280))),
        (4, 4294967296, Some((2, 1281))),
        (5, 65535, None),
        (5, 65536, Some((2, 0))),
        (12, 65535, None),
        (12, 65536, Some((2, 1))),
        (19, 1, None),
        (19, 2, Some((2, 2))),
        (8, 1, None),
        (8, 2, Some((2, 0))),
        (9, 4294967295, None),
        (9, 4294967296, Some((2, 0))),
        (22, 4294967295, None),
        (22, 4294967296, Some((2, 2))),
        (22, 18446744073709551615, Some((2, 2))),
        (22, 0, None),
        (11, 3, Some((2, 1))),
        (17, 3, Some((2, 2))),
        (17, 2, Some((2, 2))),
        (23, 1, None),
        (23, 2, Some((2, 1024))),
        (27, 2, Some((2, 1025))),
        (28, 4294967295, None),
        (28, 4294967296, Some((2, 1025))),
        (0, 65, Some((1, 0))),
        (1, 1025, Some((1, 1))),
        (2, 257, Some((1, 2))),
        (0, 3, Some((1, 3))),
        (1, 4, Some((1, 3))),
        (2, 3, Some((1, 3))),
        (2, 1, None),
        (0, 0, Some((2, 0))),
    ];

    #[test]
    fn one_number_changed(rt: HostRuntime) -> Result<(), Fail> {
        for &(at, value, expected) in &CASES {
            let mut words = plan_of(rt.alloc(), 2, 3, 2)?;
            assert!(rt; at < words.len());
            words[at] = value;
            assert_eq!(rt; refusal_of(&words), expected, "one number changed");
        }
        Ok(())
    }

    #[test]
    fn no_counts(rt: HostRuntime) {
        assert_eq!(rt; refusal_of(&[]), Some((1, 3)));
        assert_eq!(rt; refusal_of(&[0, 0]), Some((1, 3)));
        assert_eq!(rt;
            refusal_of(&[65, 0]),
            Some((1, 3)),
            "too short comes before the counts"
        );
        assert_eq!(rt; refusal_of(&[0, 0, 0]), None, "a plan of nothing");
    }

    #[test]
    fn at_the_bounds(rt: HostRuntime) -> Result<(), Fail> {
        let heap = rt.alloc();
        let most = plan_of(heap, 64, 1024, 256)?;
        assert_eq!(rt; refusal_of(&most), None);
        assert!(rt; most.len() > 0);
        assert_eq!(rt;
            refusal_of(&most[0..most.len() - 1]),
            Some((1, 3)),
            "one number short"
        );
        assert_eq!(rt;
            refusal_of(&plan_of(heap, 65, 1025, 257)?),
            Some((1, 0)),
            "the first count that is too high"
        );
        assert_eq!(rt; refusal_of(&plan_of(heap, 64, 1025, 257)?), Some((1, 1)));
        assert_eq!(rt; refusal_of(&plan_of(heap, 64, 1024, 257)?), Some((1, 2)));
        Ok(())
    }

    #[test]
    fn legs_of_one_name(rt: HostRuntime) -> Result<(), Fail> {
        let heap = rt.alloc();
        // the second leg has the name of the first, and the last that of the first
        let mut words = plan_of(heap, 1, 1024, 1)?;
        assert!(rt; words.len() > 6142);
        words[10] = 1024;
        words[6142] = 1024;
        assert_eq!(rt; refusal_of(&words), Some((2, 1)), "the first of two");
        words[10] = 1023;
        assert_eq!(rt; refusal_of(&words), Some((2, 1023)), "the last leg");
        // a walk out of bounds is told only where every leg is sound
        words[0] = 1;
        let last = words.len() - 1;
        words[last] = 4294967296;
        assert_eq!(rt; refusal_of(&words), Some((2, 1023)));
        words[6142] = 1;
        assert_eq!(rt; refusal_of(&words), Some((2, 1024)));
        Ok(())
    }

    #[test]
    fn opened(rt: HostRuntime) -> Result<(), Fail> {
        let mut words = plan_of(rt.alloc(), 2, 3, 2)?;
        let legs = Timetable::open(&words).map(|table| table.legs());
        assert!(rt; legs == Ok(3));
        words[0] = 65;
        assert!(rt; Timetable::open(&words).is_err());
        Ok(())
    }
}
