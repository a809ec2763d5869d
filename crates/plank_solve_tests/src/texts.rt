//! Texts of structures, and the turns of their methods.
use plank_base::BYTES_LIMIT;
use plank_lex::lex;
use plank_parse::parse;
use plank_pic::Exit;
use plank_prog::Program;
use plank_query::OwnTurn;
use plank_type::check;
use std::alloc::Global;

/// A list with one flag and a method for each kind of action, of one variable each.
pub const PAIR: &[u8] =
    b"structure pair;\nflag marked;\nptr next free;\nroot head;\nstart head { key = MIN; }\nedge next : x.key < j;\nholds x.key == j && !x.marked;\nmethod copy as upkeep(k) { var p; p = root; return true; }\nmethod clear as upkeep(k) { var p; p = null; return true; }\nmethod make as upkeep(k) { var p; p = new; return true; }\nmethod mark as upkeep(k) { var p; atomic { test !p.marked; write p.marked = true; } else { return false; } return true; }\nmethod link as upkeep(k) { var p; atomic { write root.next = p; } return true; }\nmethod cut as upkeep(k) { var p; atomic { write root.next = null; } return true; }\nmethod turn as upkeep(k) { var p; atomic { write p.next = p; } return true; }\n";

/// A list whose nodes are frozen when they are marked.
pub const FROZEN: &[u8] =
    b"structure frozen;\nflag marked;\nptr next asc;\nroot head;\nstart head { key = MIN; }\nedge next : x.key < j;\nholds x.key == j && !x.marked;\nfreeze x.marked;\nmethod idle as upkeep(k) { return true; }\n";

/// The program of a text, where it has one.
pub fn program_of(alloc: Global, text: &[u8]) -> Option<Program> {
    if text.len() > BYTES_LIMIT as usize {
        return None;
    }
    let tokens = lex(alloc, text).ok()?;
    let text = parse(alloc, &tokens).ok()?;
    check(alloc, &text).ok()
}

/// The own turn at the first statement of a method, by an exit.
pub fn turn_of(program: &Program, method: u32, yes: bool) -> Option<OwnTurn<'_>> {
    let exit = if yes { Exit::Yes } else { Exit::No };
    OwnTurn::at(program, method, 0, exit)
}
