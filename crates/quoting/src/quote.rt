// The quote: what the moves due are charged.
ghost use Rattle.std.specs.Prelude.{◌≡◌};
ghost use Rattle.siding.specs.Stands.{state_of};
ghost use Rattle.quoting.specs.Quote.{Quoted, share, one_way};

use motion::ways::Way;
use refusal::Refusal;
use siding::Siding;
use tariff::Tariff;
use tariff::repeated::repeated;

// The charge of the moves due under a tariff. No plan is made: each section is crossed as often as its demand says, and
// always the same way, so it has one charge, which is joined that often.
pub fn quote<F: Tariff>(siding: &Siding, tariff: &F) -> Result<F::Sum, Refusal>
    ensures { Quoted (F.Tariff.rule tariff.now) (state_of siding.now) result }
{
    siding.test_numbers()?;
    let mut sum = tariff.nothing();
    // A fold would carry the `?` in its closure, and wrap each sum: no plainer.
    for s in 1..siding.sections() {
        let demand = siding.demand_of(s)?;
        sum = tariff.join(sum, share(tariff, s, demand));
    }
    Ok(sum)
}

// What a section is charged.
fn share<F: Tariff>(tariff: &F, section: u16, demand: i16) -> F::Sum
    ensures { result ≡ share (F.Tariff.rule tariff.now) section demand }
{
    let outward = one_way(tariff, section, Way::Outward, demand);
    let inward = one_way(tariff, section, Way::Inward, demand);
    tariff.join(outward, inward)
}

// What it is charged for the moves of one way.
fn one_way<F: Tariff>(tariff: &F, section: u16, way: Way, demand: i16) -> F::Sum
    ensures { result ≡ one_way (F.Tariff.rule tariff.now) section way demand }
{
    repeated(tariff, tariff.charge(section, way), way.asked_for(demand))
}
