// The table check, a topic a test.
use crate::answers::*;
use samples::pads::PADS;
use samples::rows::*;
use samples::tables_of;
use std::test::Fail;
use tables::*;

const NOTHING: Tables<'static> = tables_of! {
    head: (0, 0, 0),
    quantities: [],
    conditions: [],
    moves: [],
    links: [],
};

// One fact, one quantity, one condition over link 1 and one move with needs at 2 and effects at 3; links still to be given.
const ONE_EACH: Tables<'static> = tables_of! {
    head: (1, 1, 0),
    quantities: [(0, 5, 0)],
    conditions: [(0, 1, 1)],
    moves: [(1, 2, 3)],
    links: [],
};

fn with_links(links: &[Link]) -> Result<(), [u32; 4]> {
    told(&Tables { links, ..ONE_EACH })
}

// The same with one link as given beside a plain term, need and effect.
fn with_term(term: Link) -> Result<(), [u32; 4]> {
    with_links(&[term, link(2, 0, 0, 0), link(4, 0, 0, 0)])
}

fn with_need(need: Link) -> Result<(), [u32; 4]> {
    with_links(&[link(1, 1, 1, 0), need, link(4, 0, 0, 0)])
}

fn with_effect(effect: Link) -> Result<(), [u32; 4]> {
    with_links(&[link(1, 1, 1, 0), link(2, 0, 0, 0), effect])
}

fn with_quantity(q: Quantity) -> Result<(), [u32; 4]> {
    let quantities = [quantity(0, 1, 0), q];
    told(&Tables {
        quantities: &quantities,
        ..NOTHING
    })
}

fn with_head(facts: u32, start: u64, goal: u32) -> Result<(), [u32; 4]> {
    let links = [link(2, 0, 0, 3), link(2, 0, 0, 0)];
    told(&Tables {
        head: Head { facts, start, goal },
        links: &links,
        ..NOTHING
    })
}

fn with_condition(kind: u32, bound: i32) -> Result<(), [u32; 4]> {
    let conditions = [condition(1, 0, 0), condition(kind, bound, 0)];
    told(&Tables {
        conditions: &conditions,
        ..NOTHING
    })
}

fn with_cost(cost: i32) -> Result<(), [u32; 4]> {
    let moves = [action(0, 0, 0), action(cost, 0, 0)];
    told(&Tables {
        moves: &moves,
        ..NOTHING
    })
}

#[test]
fn heads(rt: HostRuntime) {
    assert_eq!(rt; with_head(0, 0, 0), Ok(()));
    assert_eq!(rt; with_head(64, u64::MAX, 0), Ok(()));
    assert_eq!(rt; with_head(65, 0, 0), Err([1, 0, 0, 0]));
    assert_eq!(rt; with_head(u32::MAX, 0, 0), Err([1, 0, 0, 0]));
    assert_eq!(rt; with_head(3, 7, 2), Ok(()));
    assert_eq!(rt; with_head(3, 8, 2), Err([2, 0, 0, 0]));
    assert_eq!(rt; with_head(63, 1 << 63, 0), Err([2, 0, 0, 0]));
    assert_eq!(rt; with_head(1, 0, 3), Err([3, 0, 0, 3]));
    assert_eq!(rt; with_head(1, 0, u32::MAX), Err([3, 0, 0, u32::MAX]));
    assert_eq!(rt;
        with_head(1, 0, 1),
        Err([3, 0, 0, 3]),
        "a next past the table is told at its own number"
    );
    assert_eq!(rt; with_head(0, 0, 2), Err([3, 0, 0, 2]), "no such fact");
}

#[test]
fn lengths(rt: HostRuntime) -> Result<(), Fail> {
    let heap = rt.alloc();
    let quantities = vec![in heap; quantity(0, 0, 0); 17]?;
    let conditions = vec![in heap; condition(0, 0, 0); 65]?;
    let moves = vec![in heap; action(0, 0, 0); 257]?;
    let links = vec![in heap; link(99, 0, 0, 0); 4097]?;
    assert!(rt;
        quantities.len() == 17
            && conditions.len() == 65
            && moves.len() == 257
            && links.len() == 4097
    );
    let most = Tables {
        head: NOTHING.head,
        quantities: &quantities[0..16],
        conditions: &conditions[0..64],
        moves: &moves[0..256],
        links: &links[0..4096],
    };
    assert_eq!(rt; told(&most), Ok(()));
    let longer = Tables {
        quantities: &quantities,
        ..most
    };
    assert_eq!(rt; told(&longer), Err([1, 1, 0, 0]));
    let longer = Tables {
        conditions: &conditions,
        ..most
    };
    assert_eq!(rt; told(&longer), Err([1, 2, 0, 0]));
    let longer = Tables {
        moves: &moves,
        ..most
    };
    assert_eq!(rt; told(&longer), Err([1, 3, 0, 0]));
    let longer = Tables {
        links: &links,
        ..most
    };
    assert_eq!(rt; told(&longer), Err([1, 4, 0, 0]));
    Ok(())
}

#[test]
fn quantities(rt: HostRuntime) {
    assert_eq!(rt; with_quantity(quantity(-100_000, 100_000, 0)), Ok(()));
    assert_eq!(rt; with_quantity(quantity(-100_001, 0, 0)), Err([2, 1, 2, 0]));
    assert_eq!(rt; with_quantity(quantity(0, 100_001, 0)), Err([2, 1, 2, 0]));
    assert_eq!(rt; with_quantity(quantity(0, 5, 6)), Err([2, 1, 2, 0]));
    assert_eq!(rt; with_quantity(quantity(0, 5, -1)), Err([2, 1, 2, 0]));
    assert_eq!(rt; with_quantity(quantity(5, 5, 5)), Ok(()));
    assert_eq!(rt; with_quantity(quantity(6, 5, 5)), Err([2, 1, 2, 0]));
    assert_eq!(rt; with_quantity(quantity(i32::MIN, 0, 0)), Err([2, 1, 2, 0]));
    assert_eq!(rt;
        with_quantity(quantity(0, i32::MAX, i32::MIN)),
        Err([2, 1, 2, 0])
    );
}

#[test]
fn records(rt: HostRuntime) {
    assert_eq!(rt; with_condition(1, 20_000_000), Ok(()));
    assert_eq!(rt; with_condition(0, -20_000_000), Ok(()));
    assert_eq!(rt; with_condition(2, 0), Err([4, 2, 2, 0]));
    assert_eq!(rt; with_condition(0, 20_000_001), Err([4, 2, 2, 0]));
    assert_eq!(rt; with_condition(0, i32::MIN), Err([4, 2, 2, 0]));
    assert_eq!(rt; with_cost(10_000), Ok(()));
    assert_eq!(rt; with_cost(10_001), Err([4, 3, 2, 0]));
    assert_eq!(rt; with_cost(-1), Err([4, 3, 2, 0]));
    assert_eq!(rt; with_cost(i32::MIN), Err([4, 3, 2, 0]));
}

#[test]
fn terms(rt: HostRuntime) {
    let need = link(2, 0, 0, 0);
    let effect = link(4, 0, 0, 0);
    assert_eq!(rt; with_term(link(1, 1, 10, 0)), Ok(()));
    assert_eq!(rt; with_term(link(1, 1, 11, 0)), Err([4, 2, 1, 1]));
    assert_eq!(rt; with_term(link(1, 1, 0, 0)), Err([4, 2, 1, 1]));
    assert_eq!(rt; with_term(link(1, 1, i32::MIN, 0)), Err([4, 2, 1, 1]));
    assert_eq!(rt; with_term(link(2, 1, 1, 0)), Err([3, 2, 1, 1]));
    assert_eq!(rt; with_term(link(1, 0, 1, 0)), Err([3, 2, 1, 1]));
    assert_eq!(rt; with_term(link(1, 2, 1, 0)), Err([3, 2, 1, 1]));
    assert_eq!(rt; with_term(link(1, 1, 1, 1)), Err([3, 2, 1, 1]));
    assert_eq!(rt; with_term(link(1, 1, 1, 4)), Err([3, 2, 1, 4]));
    assert_eq!(rt;
        with_links(&[link(1, 1, 1, 4), need, effect, link(1, 1, 1, 0)]),
        Err([5, 2, 1, 4])
    );
    assert_eq!(rt;
        with_links(&[link(1, 1, 11, 4), need, effect, link(1, 1, 1, 0)]),
        Err([4, 2, 1, 1]),
        "the first fault is told"
    );
}

#[test]
fn needs_and_effects(rt: HostRuntime) {
    let term = link(1, 1, 1, 0);
    let effect = link(4, 0, 0, 0);
    assert_eq!(rt; with_need(link(1, 1, 1, 0)), Err([3, 3, 1, 2]));
    assert_eq!(rt; with_need(link(3, 1, 7, 0)), Ok(()));
    assert_eq!(rt; with_need(link(3, 2, 0, 0)), Err([3, 3, 1, 2]));
    assert_eq!(rt; with_need(link(3, 0, 0, 0)), Err([3, 3, 1, 2]));
    assert_eq!(rt;
        with_need(link(2, 0, i32::MIN, 3)),
        Err([3, 3, 1, 3]),
        "an effect in a chain of needs"
    );
    assert_eq!(rt;
        with_links(&[term, link(2, 0, 0, 4), effect, link(2, 0, 0, 0)]),
        Ok(()),
        "a fact twice"
    );
    let need = link(2, 0, 0, 0);
    assert_eq!(rt; with_effect(link(6, 1, 200_000, 0)), Ok(()));
    assert_eq!(rt; with_effect(link(6, 1, 200_001, 0)), Err([4, 3, 1, 3]));
    assert_eq!(rt; with_effect(link(6, 1, 0, 0)), Err([4, 3, 1, 3]));
    assert_eq!(rt; with_effect(link(7, 1, 1, 0)), Err([3, 3, 1, 3]));
    assert_eq!(rt; with_effect(link(5, 1, 1, 0)), Err([3, 3, 1, 3]));
    assert_eq!(rt;
        with_links(&[term, need, link(6, 1, 1, 4), link(6, 1, -1, 0)]),
        Err([5, 3, 1, 4])
    );
    assert_eq!(rt;
        with_links(&[term, need, link(4, 0, 0, 4), link(5, 0, 0, 0)]),
        Ok(()),
        "sets and clears one fact"
    );
}

#[test]
fn sharing(rt: HostRuntime) {
    let links = [
        link(1, 1, 1, 0),
        link(2, 0, 0, 0),
        link(4, 0, 0, 0),
        link(77, 88, 99, 1),
    ];
    assert_eq!(rt;
        with_links(&links),
        Ok(()),
        "a link in no chain is not looked at"
    );
    let conditions = [condition(0, 1, 1), condition(0, 2, 1)];
    let tables = Tables {
        head: Head {
            facts: 1,
            start: 0,
            goal: 2,
        },
        quantities: PADS.quantities,
        conditions: &conditions,
        moves: &[],
        links: &links,
    };
    assert_eq!(rt; told(&tables), Ok(()), "two conditions over one chain");
}
