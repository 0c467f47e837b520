// The theorems, each on the contract of a function that gives its number.
ghost use Rattle.std.specs.Prelude.{◌≡◌, ◌*◌};
ghost use Rattle.motion.specs.Demand.{BelowIsTested, SumBelowSplits, DemandsWithin, FiguresWithin};
ghost use Rattle.motion.specs.Calls.{OneEnd, SomeEnd, EverySplit};
ghost use Rattle.motion.specs.Floor.{OneDemandChanges, CrossingsBalance, FigureIsAFloor};
ghost use Rattle.motion.specs.Stepping.{OneDue, DueWhileUnsettled, DueIsLegal, SteppingEnds, OneStepping, SteppingFills, StepsAreThePlan};

// The largest demand of a section, and without its sign the smallest.
pub fn largest_demand() -> u16
    ensures value { result ≡ 512 }
    ensures demands_within { DemandsWithin result }
{
    512
}

// The largest figure of a siding.
pub fn largest_figure() -> u32
    ensures value { result ≡ 512 * 511 }
    ensures figures_within { FiguresWithin result }
{
    261_632
}

// What lies below a section, and what its sum is.
pub fn sums_stand()
    ensures below_is_tested { BelowIsTested }
    ensures sum_below_splits { SumBelowSplits }
{}

// What moves do to the demands, and that no filling list is shorter than the figure.
pub fn moves_stand()
    ensures one_demand_changes { OneDemandChanges }
    ensures crossings_balance { CrossingsBalance }
    ensures figure_is_a_floor { FigureIsAFloor }
{}

// Where calls lead is no matter of choice.
pub fn runs_stand()
    ensures one_end { OneEnd }
    ensures some_end { SomeEnd }
    ensures every_split { EverySplit }
{}

// That one move is due while some section is unsettled, what it does, and where stepping on leads.
pub fn steps_stand()
    ensures one_due { OneDue }
    ensures due_while_unsettled { DueWhileUnsettled }
    ensures due_is_legal { DueIsLegal }
    ensures stepping_ends { SteppingEnds }
    ensures one_stepping { OneStepping }
    ensures stepping_fills { SteppingFills }
    ensures steps_are_the_plan { StepsAreThePlan }
{}
