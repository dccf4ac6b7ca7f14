ghost use Rattle.std.specs.Prelude.{◌≡◌};
ghost use Rattle.thread_split.specs.Sides.{is_bound, side_of};
ghost use Rattle.workbook.specs.Registry.{registration_of};

use super::sides::Side;
use formula_parse::{CallTest, Callee, Tree, any_call};
use workbook::Book;

/// Where a formula may be evaluated: on the main thread alone where it calls RTD, or a registered function that isn't
/// thread safe, in a branch that is taken or not; else on any thread.
pub fn side(tree: &Tree, book: &Book) -> Side
    ensures { result ≡ side_of book.now.functions tree.now }
{
    if any_call(tree, &MainTest { book }) {
        Side::Main
    } else {
        Side::Any
    }
}

/// The test for what runs on the main thread alone.
#[derive(Drop)]
struct MainTest<'a> {
    book: &'a Book,
}

impl CallTest for MainTest<'_> {
    ghost passes = { λ test. is_bound (registration_of test.book.now.functions) };

    fn passes(&self, callee: &Callee) -> bool {
        match callee {
            Callee::BuiltIn(_) => false,
            Callee::Rtd => true,
            Callee::Added(name) => match self.book.registration(name.as_str()) {
                Some(registration) => !registration.thread_safe,
                None => false,
            },
        }
    }
}
