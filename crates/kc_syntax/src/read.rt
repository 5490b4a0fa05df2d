//! From the files to their menu.
ghost use Rattle.std.specs.Prelude.{◌≡◌, ◌↔◌, List, ◌++◌, Ok, Err, IfOk, IfErr};
ghost use Rattle.br_path.specs.Files.{FileMap, AreSmall};
ghost use Rattle.kc_menu.specs.Menu.{Declared};
ghost use Rattle.kc_syntax.specs.declared.error.KcFault.{KcFault};
ghost use Rattle.kc_syntax.specs.Events.{Event};
ghost use Rattle.kc_syntax.specs.Grammar.{IsRead, IsFront, IsMenuOf, IsFirstFault};
ghost use Rattle.kc_syntax.specs.Reading.{menu_of};
ghost use Rattle.kc_syntax.specs.Shown.{Fails};
ghost use Rattle.kc_syntax.specs.State.{State, start};

use crate::error::KcError;
use crate::reader::Reader;
use br_path::Files;
use kc_menu::Menu;
use std::alloc::Global;

/// Reads the menu that the files declare, or tells their first fault.
///
/// A choice after 2^32 - 1 others has no place that an entry could name, and is answered as out of memory.
#[tactic(auto, unfolding(crate::specs::Reading::menu_of))]
pub fn parse(alloc: Global, files: &Files) -> Result<Menu, KcError>
    requires { AreSmall files.now }
    ensures menu { IfOk result (λ menu. menu_of files.now ≡ Ok menu) }
    ensures fault { IfErr result (Fails (menu_of files.now)) }
{
    let mut reader = Reader::new(alloc);
    if let Err(error) = reader.read_all(files) {
        return Err(error);
    }
    reader.finish()
}

/// A law with nothing to run: the menu of the files is what they are as blocks matched like brackets, with each line of a row
/// that may stand where it does. Their fault is that of the first line that none allows after those before it, or else the
/// first that only the whole shows. So they have one menu or one fault, and not both.
///
/// What stands before the line at fault can always go on until it is whole, and where files are whole, so can each of their
/// fronts. So the line at fault is the first after which nothing makes the files whole.
pub fn files_are_read()
    ensures menu { (files : FileMap) (menu : Declared) → IsMenuOf files menu ↔ (menu_of files ≡ Ok menu) }
    ensures fault { (files : FileMap) (fault : KcFault) → IsFirstFault files fault ↔ (menu_of files ≡ Err fault) }
    ensures onward { (front : List Event) (s : State) → IsFront front s → (back : List Event) × ((last : State) × IsRead start (front ++ back) last) }
    ensures begun { (front back : List Event) (last : State) → IsRead start (front ++ back) last → (s : State) × IsFront front s }
{}
