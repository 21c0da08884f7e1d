//! Short forms for the tables.
ghost use Rattle.std.specs.Prelude.{◌≡◌};
ghost use Rattle.packs.specs.Short.{on_of, off_of, body_of};

use words::literal::Literal;
use words::literals::Literals;

// The literal that the fluent is true.
pub(crate) fn on(fluent: u32) -> Literal
    ensures { result ≡ on_of fluent }
{
    Literal { fluent, sign: true }
}

// The literal that the fluent is false. Not one function with `on`: `off(COLD)` says what `literal(COLD, false)`
// leaves to the reader.
pub(crate) fn off(fluent: u32) -> Literal
    ensures { result ≡ off_of fluent }
{
    Literal {
        fluent,
        sign: false,
    }
}

// The body whose masks are these.
pub(crate) fn body(truths: u32, falses: u32) -> Literals
    ensures { result ≡ body_of truths falses }
{
    Literals { truths, falses }
}
