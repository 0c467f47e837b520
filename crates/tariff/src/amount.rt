// A number of moves or of metres, up to the largest that fits; joining stops there.
ghost use Rattle.std.specs.Prelude.{◌<◌, ◌^◌};

pub mod sums;
pub mod value;

#[derive(Clone, Copy, PartialEq, Eq, PartialOrd, Ord, Debug)]
pub struct Amount {
    value: u32,
    ghost fits: { value < 2 ^ 32 },
}
