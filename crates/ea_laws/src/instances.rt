//! Laws of an instance.
ghost use Rattle.ea_laws.specs.InstanceLaws.{StandsAtBeginning, Creates, CreatesSingle};
ghost use Rattle.ea_laws.specs.InstanceLaws.{Dismisses, Disowns, EmploysWithinRegion};
ghost use Rattle.ea_laws.specs.InstanceLaws.{Places, RefusesNumbers, RefusesSpace, Releases};
ghost use Rattle.ea_laws.specs.InstanceLaws.{Resizes, StandsInOrder};
ghost use Rattle.ea_laws.specs.PlanLaws.{PlansFalling, PlansNumber, PlansPowers, PlansSize};
ghost use Rattle.ea_laws.specs.PlanLaws.{PlansSpace};

/// An instance stands at its beginning, and after each placement, release, creation and
/// reallocation in place, and after a carrier was dismissed or disowned. While it stands it is in
/// order, and where carriers don't migrate it employs no more units than its region has. What each
/// change does to its blocks is said, and that other blocks stay; why there is no plan for a
/// carrier; and of one that is planned its number, its size and its pages.
pub fn instances()
    ensures begins { StandsAtBeginning }
    ensures order { StandsInOrder }
    ensures region { EmploysWithinRegion }
    ensures places { Places }
    ensures releases { Releases }
    ensures dismisses { Dismisses }
    ensures disowns { Disowns }
    ensures creates { Creates }
    ensures creates_single { CreatesSingle }
    ensures resizes { Resizes }
    ensures numbers { RefusesNumbers }
    ensures space { RefusesSpace }
    ensures plans_number { PlansNumber }
    ensures plans_size { PlansSize }
    ensures plans_powers { PlansPowers }
    ensures plans_space { PlansSpace }
    ensures plans_falling { PlansFalling }
{}
