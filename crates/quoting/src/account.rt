// What a siding says of its moves under a tariff: what it says of them under none, and the quote.
ghost use Rattle.std.specs.Prelude.{◌≡◌};

use refusal::Refusal;
use std::fmt;

#[derive(Clone, Copy, PartialEq, Eq, Debug)]
pub struct Account<S> {
    // the figure, and what the page holds
    pub page: planning::account::Account,
    // refused while wagons and berths differ in number
    pub quote: Result<S, Refusal>,
}

// The numbers of the page, a blank, and the quote, or the refusal in its place.
impl<S: fmt::Display> fmt::Display for Account<S> {
    ghost use Rattle.quoting.specs.Shown.{account_shown};

    ghost output = { λ account. account_shown S.output account };

    fn fmt<W: fmt::Write>(&self, f: &mut fmt::Formatter<W>) -> fmt::Result {
        let page = self.page;
        match &self.quote {
            Ok(sum) => write!(f, "{page} {sum}"),
            Err(refusal) => write!(f, "{page} no {refusal}"),
        }
    }
}
