// Marks and fronts on examples: the order on a grid, which marks a front takes, rows of several lengths, and the texts.
#![tactic(auto)]

#[cfg(test)]
mod tests {
    use marks::front::Front;
    use marks::mark::Mark;
    use plan::refusal::Refusal;
    use std::test::Fail;

    fn mark(arrival: u64, boats: u64) -> Mark {
        Mark { arrival, boats }
    }

    fn two_marks() -> Front {
        Front::empty().with(mark(35, 1)).with(mark(30, 2))
    }

    #[test]
    fn no_worse_compares_both_numbers(rt: HostRuntime) {
        for a in 0..16 {
            for b in 0..16 {
                let later = a / 4 > b / 4;
                let more = a % 4 > b % 4;
                let no_worse = mark(a / 4, a % 4).no_worse(mark(b / 4, b % 4));
                assert!(rt; no_worse == !(later || more));
            }
        }
    }

    #[test]
    fn a_front_takes_what_comes_next(rt: HostRuntime) {
        let front = two_marks();
        assert!(rt;
            front.accepts(mark(29, 3)),
            "one boat more, one minute earlier"
        );
        assert!(rt; !front.accepts(mark(30, 3)), "no earlier");
        assert!(rt; !front.accepts(mark(29, 2)), "no more boats");
        assert!(rt; front.is_covered(mark(35, 2)), "covered by the first");
        assert!(rt; !front.is_covered(mark(29, 2)), "covered by none");
        let mut full = Front::empty();
        for boats in 0..12 {
            full = full.with(mark(50 - boats, boats));
        }
        assert_eq!(rt; full.marks().len(), 9, "there is room for nine");
    }

    #[test]
    fn rows_of_several_lengths(rt: HostRuntime) {
        let mut short = [7; 18];
        let told = two_marks().write(&mut short);
        assert!(rt; told == Err(Refusal::ShortRow(18)));
        assert!(rt; told.map_err(|refusal| (refusal.number(), refusal.place())) == Err((4, 18)));
        assert!(rt; short == [7; 18], "a refused row is as it was");
        let mut whole = [7; 19];
        assert!(rt; two_marks().write(&mut whole) == Ok(2));
        assert!(rt; whole == [2, 35, 1, 30, 2, 7, 7, 7, 7, 7, 7, 7, 7, 7, 7, 7, 7, 7, 7]);
        let mut long = [7; 25];
        assert!(rt; Front::empty().write(&mut long) == Ok(0));
        assert!(rt; long[0] == 0 && long[1] == 7 && long[24] == 7);
    }

    #[test]
    fn texts(rt: HostRuntime) -> Result<(), Fail> {
        let one = mark(35, 1);
        let two = two_marks();
        let none = Front::empty();
        assert!(rt; format!(in rt.alloc(); "{one}")?.as_str() == "35/1");
        assert!(rt; format!(in rt.alloc(); "{two}")?.as_str() == "35/1 30/2");
        assert!(rt; format!(in rt.alloc(); "{none}")?.as_str() == "");
        Ok(())
    }
}
