// One table of questions over small matrices, and what each is answered.
#![tactic(auto)]

#[cfg(test)]
mod tests {
    use answers::held_at;
    use matrix::Matrix;
    use rules::measure::Measure;
    use rules::weights::{Crossings, Label, Steps};
    use search::answer::Refusal;
    use search::question::ask;
    use std::process::Abort;
    use std::test::Fail;

    // The plan from the held operations to the target, where the pairs say which grants which; nothing where there is no chain.
    fn plan(
        rt: &(impl Abort + AllocGlobal),
        pairs: &[(u16, u16)],
        held: &[u8; 5],
        target: u16,
    ) -> Result<Vec<u16>, Fail> {
        let mut matrix = Matrix::new(rt.alloc(), 5).map_err(|_| Fail::new("no memory"))?;
        for (p, g) in pairs {
            let _ = matrix.grant(*p, *g);
        }
        let mut marks = [7u8; 5];
        let mut labels = [Label {
            weight: Steps::zero(),
            next: 0,
            rule: 0,
        }; 5];
        let mut privileges = [9u16; 5];
        let mut rules = [9u8; 5];
        let asked = ask(
            &matrix,
            held,
            target,
            &mut marks,
            &mut labels,
            &mut privileges,
            &mut rules,
        );
        let count = match asked {
            Ok(found) => found.steps as usize + 1,
            Err(Refusal::NoChain) => 0,
            Err(_) => return Err(Fail::new("not well formed")),
        };
        assert_eq!(rt; marks, [0; 5]);
        Ok(privileges.iter().take(count).copied().collect(rt.alloc())?)
    }

    fn expect(
        rt: &(impl Abort + AllocGlobal),
        pairs: &[(u16, u16)],
        held: &[u8; 5],
        target: u16,
        expected: &[u16],
    ) -> Result<(), Fail> {
        let written = plan(rt, pairs, held, target)?;
        assert_eq!(rt; written.as_slice(), expected);
        Ok(())
    }

    #[test]
    fn table(rt: HostRuntime) -> Result<(), Fail> {
        // a target that is held
        expect(&rt, &[], &[0, 0, 1, 0, 0], 2, &[2])?;
        // nothing held
        expect(&rt, &[(0, 1), (1, 2)], &[0; 5], 2, &[])?;
        // a tie: both ways have two steps, and one of them is written
        expect(
            &rt,
            &[(0, 1), (0, 2), (1, 3), (2, 3)],
            &[1, 0, 0, 0, 0],
            3,
            &[0, 1, 3],
        )?;
        // a loop on the way, and one at the target
        expect(
            &rt,
            &[(0, 1), (1, 0), (1, 2), (2, 2)],
            &[1, 0, 0, 0, 0],
            2,
            &[0, 1, 2],
        )?;
        // a loop that does not reach the target
        expect(&rt, &[(0, 1), (1, 0), (2, 3)], &[1, 0, 0, 0, 0], 3, &[])?;
        // as long as there are operations
        expect(
            &rt,
            &[(4, 3), (3, 2), (2, 1), (1, 0)],
            &[0, 0, 0, 0, 1],
            0,
            &[4, 3, 2, 1, 0],
        )?;
        // several held: the nearest, and no other on the way
        expect(
            &rt,
            &[(0, 1), (1, 2), (2, 3)],
            &[1, 1, 0, 0, 0],
            3,
            &[1, 2, 3],
        )?;
        Ok(())
    }

    #[test]
    fn the_start_alone_is_held(rt: HostRuntime) -> Result<(), Fail> {
        let matrix = Matrix::new(rt.alloc(), 3).map_err(|_| Fail::new("no memory"))?;
        let held = held_at(rt.alloc(), &matrix, 1)?;
        assert_eq!(rt; held.as_slice(), [0u8, 1, 0].as_slice());
        Ok(())
    }

    #[test]
    fn crossings_stop(rt: HostRuntime) {
        let w = Crossings {
            crossings: 65534,
            steps: 9,
        }
        .add(true);
        assert_eq!(rt; (w.crossings, w.steps), (65535, 10));
        let top = w.add(true);
        assert_eq!(rt; (top.crossings, top.steps), (65535, 65535));
    }

    #[test]
    fn steps_stop(rt: HostRuntime) {
        assert_eq!(rt; Steps { count: 65535 }.add(true).count, 65535);
        assert_eq!(rt; Steps::zero().add(false).count, 1);
    }
}
