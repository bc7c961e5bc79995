// What answers are printed with.
ghost use Rattle.std.specs.Prelude.{◌<◌};
ghost use Rattle.scope.specs.Machines.Room.{states_of};

use answers::Numbered;
use room::Table;
use scope::Machine;
use soundness::SoundRoom;
use std::io;
use std::io::{Stdout, Write};

// Prints the number of a refusal.
pub fn refused(out: &mut Stdout, refusal: &impl Numbered) -> io::Result<()> {
    write!(out, "refused {}", refusal.number())
}

// Prints how many states and classes a room has.
pub fn sizes(out: &mut Stdout, room: &[u8; Machine::ROOM]) -> io::Result<()> {
    let machine = room::head(room);
    write!(out, "states {} classes {}", machine.states, machine.classes)
}

// Prints the first bytes of a string room in hex, `-` if there are none: the room and the count, as comparing answers them.
pub fn word(out: &mut Stdout, room: &[u8], count: usize) -> io::Result<()> {
    if count == 0 {
        return write!(out, "-");
    }
    for byte in room.iter().take(count) {
        write!(out, "{byte:02x}")?;
    }
    Ok(())
}

// Prints the cells of the state q, between commas.
fn row(out: &mut Stdout, table: &Table, q: usize) -> io::Result<()>
    requires { q < states_of table.now }
{
    for class in 0..table.head().classes as u8 {
        if class > 0 {
            write!(out, ",")?;
        }
        write!(out, "{}", table.cell(q, class))?;
    }
    Ok(())
}

// Prints the rows of a table, between slashes.
fn rows(out: &mut Stdout, table: &Table) -> io::Result<()> {
    for q in 0..table.head().states {
        if q > 0 {
            write!(out, "/")?;
        }
        row(out, table, q)?;
    }
    Ok(())
}

// Prints the states that accept, between commas, `-` if there are none.
fn accepting(out: &mut Stdout, table: &Table) -> io::Result<()> {
    let mut before = "";
    for q in 0..table.head().states {
        if table.mark(q) == 1 {
            write!(out, "{before}{q}")?;
            before = ",";
        }
    }
    if before.is_empty() {
        return write!(out, "-");
    }
    Ok(())
}

// Prints the table of a room, if it is sound.
pub fn table(out: &mut Stdout, room: &[u8]) -> io::Result<()> {
    if let Some(sound) = SoundRoom::of(room) {
        rows(out, sound.table())?;
        write!(out, " ")?;
        accepting(out, sound.table())?;
    }
    Ok(())
}
