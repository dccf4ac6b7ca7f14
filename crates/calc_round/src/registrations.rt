//! The registrations of the functions that a formula calls.

ghost use Rattle.std.specs.Prelude.{◌≡◌, ◌++◌, option_to_list, IfOk, OnOk};
ghost use Rattle.formula_parse.specs.Tree.{sites_named};
ghost use Rattle.calc_round.specs.Looks.{registered_among, registration_entry};

use addin_types::Registration;
use cell_eval::Registrations;
use cell_values::{Memory, Name};
use formula_parse::{Tree, called_names};
use std::alloc::Global;
use workbook::Book;

/// The registered ones among the names that a formula calls, with their registrations.
pub fn registrations_of(alloc: Global, book: &Book, tree: &Tree) -> Result<Registrations, Memory>
    ensures { IfOk result (λ entries. entries
        ≡ registered_among book.now.functions (sites_named tree.now)) }
{
    let names = called_names(alloc, tree)?;
    let mut entries = Vec::new(alloc);
    for name in &names {
        push_registered(book, name, &mut entries)?;
    }
    Ok(Registrations::new(entries))
}

/// Adds a name with its registration, where it is registered.
fn push_registered(
    book: &Book,
    name: &Name,
    entries: &mut Vec<(Name, Registration)>,
) -> Result<(), Memory>
    ensures { OnOk result (entries.new.items ≡ entries.old.items
        ++ option_to_list (registration_entry book.now.functions name.now)) }
{
    if let Some(registration) = book.registration(name.as_str()) {
        entries.push((name.copy()?, *registration))?;
    }
    Ok(())
}
