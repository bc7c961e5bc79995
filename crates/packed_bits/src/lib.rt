// The bit fields of the packed form: how wide they are, where they begin, and how many bits and bytes all of them have.
#![tactic(auto)]

ghost use Rattle.std.specs.Prelude.{◌≡◌, ◌*◌, ◌%◌, ◌^◌, ◌≤◌};
ghost use Rattle.scope.specs.Limits.{state_limit, class_limit};
ghost use Rattle.scope.specs.Packing.PackedForm.{form_length};
ghost use Rattle.packed_bits.specs.PackedFields.{bits_of};

use room::Table;
use scope::Machine;

// The form: the number it begins with, the bits of each kind of field, and the bits where classes and marks begin.
pub const FORM_NUMBER: usize = 1;

pub const FORM_NUMBER_BITS: usize = 4;

pub const STATE_BITS: usize = 7;

pub const CLASS_BITS: usize = 6;

pub const MARK_BITS: usize = 1;

pub const CLASSES_BIT: usize = FORM_NUMBER_BITS + STATE_BITS + CLASS_BITS;

pub const MARKS_BIT: usize = CLASSES_BIT + Machine::BYTES * CLASS_BITS;

// The lowest bits of x, at most eight.
pub fn low(x: usize, count: usize) -> usize
    requires { count ≤ 8 }
    ensures { result ≡ x % 2 ^ count }
{
    x % (1 << count)
}

// How many cells a machine uses.
// The limits are no part of `Machine`: the head of a room that is not judged may name more.
pub fn used_cells(machine: Machine) -> usize
    requires { (machine.states ≤ state_limit) × (machine.classes ≤ class_limit) }
    ensures { (result ≡ machine.states * machine.classes) × (result ≤ state_limit * class_limit) }
{
    machine.states * machine.classes
}

// How many bits the form of a room with this head has, before filling.
pub fn form_bits(machine: Machine) -> usize
    requires { (machine.states ≤ state_limit) × (machine.classes ≤ class_limit) }
    ensures { (result ≡ bits_of machine.states machine.classes) × (result ≤ bits_of state_limit class_limit) }
{
    MARKS_BIT + machine.states * MARK_BITS + used_cells(machine) * STATE_BITS
}

// How many bytes the form of a room has.
pub fn form_length(room: &Table) -> usize
    ensures { result ≡ form_length room.now }
{
    form_bits(room.head()).div_ceil(8)
}
