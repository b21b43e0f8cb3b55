//! Names that are held and let go.
use ea_model::Spot;
use ea_names::{GROUP, Names};
use std::test::Fail;

const FIRST: Spot = Spot {
    carrier: 1,
    offset: 8,
};

const SECOND: Spot = Spot {
    carrier: 1025,
    offset: 22,
};

#[test]
fn a_held_name_has_its_spot_until_it_is_let_go(rt: HostRuntime) -> Result<(), Fail> {
    let mut names = Names::whole(rt.alloc(), 3)?;
    assert_eq!(rt; names.spot_of(2), None);

    names.hold(2, FIRST);
    assert_eq!(rt; names.spot_of(2), Some(FIRST));
    assert_eq!(rt; names.spot_of(1), None);
    assert_eq!(rt; names.spot_of(3), None);

    // Two names may have one spot, and the greatest name has a place.
    names.hold(3, FIRST);
    names.hold(1, SECOND);
    assert_eq!(rt; names.spot_of(3), Some(FIRST));

    // A name that is taken isn't held, and one that isn't held is let go without effect.
    assert_eq!(rt; names.take(2), Some(FIRST));
    assert_eq!(rt; names.take(2), None);
    names.let_go(0);
    assert_eq!(rt; names.spot_of(1), Some(SECOND));
    assert_eq!(rt; names.spot_of(2), None);
    assert_eq!(rt; names.spot_of(3), Some(FIRST));

    // A name that was let go may be held anew.
    names.hold(2, SECOND);
    assert_eq!(rt; names.spot_of(2), Some(SECOND));
    Ok(())
}

#[test]
fn places_are_made_group_by_group(rt: HostRuntime) -> Result<(), Fail> {
    let mut names = Names::new(rt.alloc(), 3 * GROUP)?;
    for group in names.groups() {
        assert_eq!(rt; group.len(), 0);
    }
    names.make_place(rt.alloc(), GROUP + 3)?;
    names.hold(GROUP + 3, FIRST);

    // The others of its group have places with it. A place that is made again keeps its name.
    names.hold(2 * GROUP - 1, SECOND);
    names.make_place(rt.alloc(), GROUP)?;
    assert_eq!(rt; names.spot_of(GROUP + 3), Some(FIRST));
    assert_eq!(rt; names.spot_of(2 * GROUP - 1), Some(SECOND));

    // Names of the groups beside it aren't held, and letting one go changes nothing.
    assert_eq!(rt; names.spot_of(3), None);
    assert_eq!(rt; names.spot_of(2 * GROUP + 3), None);
    names.let_go(3);
    names.let_go(2 * GROUP + 3);
    names.make_place(rt.alloc(), 3 * GROUP)?;
    assert_eq!(rt; names.spot_of(GROUP + 3), Some(FIRST));

    // The walk passes each group, and in it each place.
    for (group, places) in [0, GROUP, 0, GROUP].into_iter().enumerate() {
        assert_eq!(rt;
            names.groups().get(group).map(|g| g.len()),
            Some(places as usize)
        );
    }
    assert_eq!(rt; names.groups()[1].get(3).copied(), Some(Some(FIRST)));
    assert_eq!(rt; names.groups()[3].get(0).copied(), Some(None));
    Ok(())
}
