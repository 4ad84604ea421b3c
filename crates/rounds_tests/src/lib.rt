// Answers worked out by hand: the four piers, and plans on which a careless program answers wrongly.
#![tactic(auto)]

#[cfg(test)]
mod tests {
    use rounds::answer::answer;
    use rounds::reply::{number, value};

    // Four piers with changes of 2, 3, 2 and 0 minutes; at pier 1 a change takes longer than run 0 waits there.
    const FOUR: [u64; 40] = [
        4, 5, 1, 2, 3, 2, 0, 0, 0, 0, 1, 10, 20, 0, 1, 1, 2, 22, 35, 1, 0, 1, 2, 24, 30, 2, 0, 0,
        2, 12, 45, 3, 0, 2, 3, 31, 40, 2, 3, 15,
    ];

    // Run 5 takes no time from pier 0 over 1 to 2, and its second leg stands first; walks lead from 2 over 3 to 4.
    const ODD: [u64; 38] = [
        5, 3, 4, 9, 9, 9, 9, 9, 5, 1, 1, 2, 30, 30, 5, 0, 0, 1, 30, 30, 6, 0, 3, 4, 50, 40, 2, 3,
        5, 3, 4, 5, 2, 3, 4, 4, 0, 7,
    ];

    struct Case {
        question: [u64; 4],
        // The count of marks, and the first three of them.
        expected: [u64; 7],
    }

    // The row holds what is expected, and past the marks what it held.
    fn is_answered(plan: &[u64], case: &Case) -> bool {
        let mut out = [99u64; 20];
        let _ = answer(plan, &case.question, &mut out);
        let told = case.expected[0].saturating_mul(2).saturating_add(1).min(7) as usize;
        out.starts_with(&case.expected[..told]) && out[told..].iter().all(|held| *held == 99)
    }

    fn are_answered(plan: &[u64], cases: &[Case]) -> bool {
        for case in cases {
            if !is_answered(plan, case) {
                return false;
            }
        }
        true
    }

    #[test]
    fn four_piers(rt: HostRuntime) {
        let all = are_answered(
            &FOUR,
            &[
                // a stay takes no boat more and no change: 35/1; one boat more is earlier
                Case {
                    question: [0, 9, 2, 3],
                    expected: [2, 35, 1, 30, 2, 0, 0],
                },
                // a walk goes on from the last pier, where no change is made
                Case {
                    question: [0, 9, 3, 3],
                    expected: [2, 50, 1, 45, 2, 0, 0],
                },
                Case {
                    question: [0, 9, 2, 1],
                    expected: [1, 35, 1, 0, 0, 0, 0],
                },
                // no change is made before the first boat
                Case {
                    question: [0, 10, 1, 8],
                    expected: [1, 20, 1, 0, 0, 0, 0],
                },
                Case {
                    question: [0, 11, 1, 8],
                    expected: [0, 0, 0, 0, 0, 0, 0],
                },
            ],
        );
        assert!(rt; all, "an answer is another than was worked out");
    }

    #[test]
    fn four_piers_with_run_3_delayed(rt: HostRuntime) {
        let mut plan = FOUR;
        plan[35] = 33;
        plan[36] = 42;
        let all = are_answered(
            &plan,
            &[
                Case {
                    question: [0, 9, 2, 3],
                    expected: [2, 35, 1, 30, 2, 0, 0],
                },
                Case {
                    question: [0, 9, 3, 3],
                    expected: [3, 50, 1, 45, 2, 42, 3],
                },
                Case {
                    question: [0, 9, 3, 2],
                    expected: [2, 50, 1, 45, 2, 0, 0],
                },
            ],
        );
        assert!(rt; all, "an answer is another than was worked out");
    }

    #[test]
    fn odd_plans(rt: HostRuntime) {
        let all = are_answered(
            &ODD,
            &[
                // legs that take no time, the later of them first in the plan
                Case {
                    question: [0, 0, 2, 8],
                    expected: [1, 30, 1, 0, 0, 0, 0],
                },
                // the shorter of two walks, and never two walks in a row
                Case {
                    question: [0, 0, 3, 8],
                    expected: [1, 34, 1, 0, 0, 0, 0],
                },
                Case {
                    question: [0, 0, 4, 8],
                    expected: [0, 0, 0, 0, 0, 0, 0],
                },
                Case {
                    question: [2, 0, 4, 8],
                    expected: [0, 0, 0, 0, 0, 0, 0],
                },
                // begun by a walk
                Case {
                    question: [4, 20, 2, 8],
                    expected: [1, 30, 1, 0, 0, 0, 0],
                },
                Case {
                    question: [4, 24, 2, 8],
                    expected: [0, 0, 0, 0, 0, 0, 0],
                },
                // there already, and a leg that does not run
                Case {
                    question: [3, 7, 3, 8],
                    expected: [1, 7, 0, 0, 0, 0, 0],
                },
                Case {
                    question: [3, 45, 4, 8],
                    expected: [1, 50, 0, 0, 0, 0, 0],
                },
            ],
        );
        assert!(rt; all, "an answer is another than was worked out");
    }

    // The first refusal that applies: of the plan, then of the question, then of the row; and the row is as it was.
    #[test]
    fn refusals(rt: HostRuntime) {
        let mut short = [99u64; 18];
        let reply = answer(&FOUR, &[0, 9, 2, 3], &mut short);
        assert_eq!(rt; (number(reply), value(reply)), (4, 18));
        let reply = answer(&FOUR, &[0, 9, 4, 3], &mut short);
        assert_eq!(rt; (number(reply), value(reply)), (3, 2));
        let reply = answer(&FOUR, &[0, 4294967296, 4, 3], &mut short);
        assert_eq!(rt; (number(reply), value(reply)), (3, 1));
        let reply = answer(&FOUR, &[0, 9, 2], &mut short);
        assert_eq!(rt; (number(reply), value(reply)), (3, 3));
        let reply = answer(&FOUR[0..39], &[0, 9, 2], &mut short);
        assert_eq!(rt; (number(reply), value(reply)), (1, 3));
        let reply = answer(&[0, 0, 0], &[0, 9, 0, 3], &mut short);
        assert_eq!(rt; (number(reply), value(reply)), (3, 0), "a plan of no piers");
        for number in short {
            assert_eq!(rt; number, 99);
        }
    }
}
