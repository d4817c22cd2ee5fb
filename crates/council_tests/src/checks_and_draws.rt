// Which editions the checks admit, which post the draws give each view, and the settings that are
// refused.
use council::check::Check;
use council::draw::Draw;
use editions::list::ListCheck;
use editions::remainder::RemainderCheck;
use leads::table::Table;
use leads::turn::Turn;
use refusals::Refusal;
use std::process::Abort;
use std::test::Fail;

// The check admits each edition of the list, and not the number after it.
fn admits_each<C: Check>(rt: &impl Abort, check_of: &C, editions: &[u64]) {
    assert!(rt; !check_of.admits(0));
    for edition in editions {
        assert!(rt; check_of.admits(*edition));
        assert!(rt; !check_of.admits(edition.wrapping_add(1)));
    }
}

#[test]
fn remainders(rt: HostRuntime) {
    admits_each(
        &rt,
        &RemainderCheck,
        &[1, 98, 195, 18_446_744_073_709_551_556],
    );
    assert!(rt; !RemainderCheck.admits(97));
    assert!(rt; !RemainderCheck.admits(u64::MAX));
}

#[test]
fn list_with_a_zero(rt: HostRuntime) -> Result<(), Fail> {
    let list = ListCheck::new(vec![in rt.alloc(); 5, 0, u64::MAX, 98]?);
    admits_each(&rt, &list, &[5, u64::MAX, 98]);
    Ok(())
}

#[test]
fn empty_list(rt: HostRuntime) -> Result<(), Fail> {
    let list = ListCheck::new(Vec::with_capacity(rt.alloc(), 0)?);
    admits_each(&rt, &list, &[]);
    assert!(rt; !list.admits(98));
    Ok(())
}

// The draw is for so many posts, and the first views have these leads.
fn draws<D: Draw>(rt: &impl Abort, draw: &D, posts: u8, leads: &[u8]) {
    assert_eq!(rt; draw.posts(), posts);
    for (view, lead) in (0u16..).zip(leads) {
        assert_eq!(rt; draw.lead_of(view), *lead);
    }
}

#[test]
fn turns(rt: HostRuntime) -> Result<(), Fail> {
    let mut turn = Turn::new(2);
    draws(&rt, &turn, 1, &[0, 0, 0]);
    turn.set(4)?;
    draws(&rt, &turn, 4, &[2, 3, 0, 1, 2]);
    turn.set(64)?;
    assert_eq!(rt; turn.lead_of(u16::MAX), 1);
    let mut far = Turn::new(255);
    far.set(7)?;
    draws(&rt, &far, 7, &[3, 4, 5, 6, 0]);
    Ok(())
}

#[test]
fn turns_refused(rt: HostRuntime) -> Result<(), Fail> {
    let mut turn = Turn::new(1);
    turn.set(3)?;
    for n in [0, 65, 255] {
        assert_eq!(rt; turn.set(n), Err(Refusal::BadOpening));
        draws(&rt, &turn, 3, &[1, 2, 0, 1]);
    }
    Ok(())
}

#[test]
fn tables(rt: HostRuntime) -> Result<(), Fail> {
    let mut table = Table::new(rt.alloc())?;
    draws(&rt, &table, 1, &[0, 0, 0]);
    table.set(4, vec![in rt.alloc(); 3, 1, 0]?)?;
    draws(&rt, &table, 4, &[3, 1, 0, 3, 1, 0, 3]);
    table.set(64, vec![in rt.alloc(); 63]?)?;
    draws(&rt, &table, 64, &[63, 63]);
    Ok(())
}

#[test]
fn tables_refused(rt: HostRuntime) -> Result<(), Fail> {
    let mut table = Table::new(rt.alloc())?;
    table.set(4, vec![in rt.alloc(); 3, 1]?)?;
    let refused = [
        (4, Vec::with_capacity(rt.alloc(), 0)?),
        (4, vec![in rt.alloc(); 0, 4]?),
        (0, vec![in rt.alloc(); 0]?),
        (65, vec![in rt.alloc(); 0]?),
    ];
    for (n, entries) in refused {
        assert_eq!(rt; table.set(n, entries), Err(Refusal::BadOpening));
        draws(&rt, &table, 4, &[3, 1, 3]);
    }
    Ok(())
}
