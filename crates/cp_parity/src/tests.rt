// Equations that bits meet, and equations that none do.
use crate::{ParityFault, Places, solve};
use cp_base::{Equation, Equations};
use std::alloc::Global;
use std::process::Abort;
use std::test::Fail;

const SAME: bool = false;

const ODD: bool = true;

// The answer to equations, each given by its two vars and whether it is odd.
fn answer(
    rt: &impl Abort,
    alloc: Global,
    vars: usize,
    rows: &[(usize, usize, bool)],
) -> Result<Vec<bool>, ParityFault> {
    let mut eqs = Equations::new(alloc);
    for row in rows {
        let (x, y, odd) = *row;
        assert!(rt; x < vars);
        assert!(rt; y < vars);
        eqs.push(Equation { x, y, odd })?;
    }
    solve(alloc, vars, eqs.items())
}

// The cycle of a conflict.
fn cycle_of(answer: Result<Vec<bool>, ParityFault>) -> Option<Places> {
    match answer {
        Ok(_bits) => None,
        Err(fault) => match fault {
            ParityFault::Conflict { cycle } => Some(cycle),
            ParityFault::Memory => None,
        },
    }
}

#[test]
fn equations_are_met(rt: HostRuntime) -> Result<(), Fail> {
    let path = answer(&rt, rt.alloc(), 3, &[(0, 1, SAME), (1, 2, ODD)])?;
    assert_eq!(rt; path.as_slice(), [false, false, true].as_slice());
    let none = answer(&rt, rt.alloc(), 0, &[])?;
    assert!(rt; none.is_empty());
    let parts = answer(
        &rt,
        rt.alloc(),
        5,
        &[(4, 1, ODD), (1, 1, SAME), (3, 0, ODD), (1, 4, ODD)],
    )?;
    assert_eq!(rt;
        parts.as_slice(),
        [false, false, false, true, true].as_slice()
    );
    let even = answer(
        &rt,
        rt.alloc(),
        4,
        &[(0, 1, ODD), (1, 2, ODD), (2, 3, SAME), (3, 0, SAME)],
    )?;
    assert_eq!(rt; even.as_slice(), [false, true, false, false].as_slice());
    Ok(())
}

#[test]
fn odd_cycles_are_told(rt: HostRuntime) -> Result<(), Fail> {
    let triangle = cycle_of(answer(
        &rt,
        rt.alloc(),
        3,
        &[(0, 1, SAME), (1, 2, ODD), (0, 2, SAME)],
    ));
    let places = triangle.ok_or("no conflict")?;
    assert_eq!(rt; places.len(), 3);
    assert!(rt;
        places.items().contains(&0) && places.items().contains(&1) && places.items().contains(&2)
    );
    let itself = cycle_of(answer(&rt, rt.alloc(), 2, &[(0, 0, SAME), (1, 1, ODD)]));
    assert_eq!(rt; itself.ok_or("no conflict")?.items(), [1usize].as_slice());
    let pair = cycle_of(answer(&rt, rt.alloc(), 2, &[(0, 1, SAME), (1, 0, ODD)]));
    assert_eq!(rt; pair.ok_or("no conflict")?.len(), 2);
    Ok(())
}
