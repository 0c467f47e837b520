// The page of a siding: its figure when the page was begun, the page's moves, and its away moves.
ghost use Rattle.std.specs.Prelude.{◌≡◌};

#[derive(Clone, Copy)]
pub(crate) struct Page {
    pub(crate) head: u32,
    pub(crate) moves: u32,
    pub(crate) away: u32,
}

impl Page {
    // A page that holds nothing yet.
    pub(crate) fn begun(figure: u32) -> Page
        ensures { result ≡ record { head = figure; moves = 0; away = 0 } }
    {
        Page {
            head: figure,
            moves: 0,
            away: 0,
        }
    }
}
