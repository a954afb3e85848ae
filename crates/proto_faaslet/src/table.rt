//! The table of an instance.

ghost use Rattle.std.specs.Prelude.{◌≡◌, ◌+◌, ◌≤◌, ◌↔◌, All, IsTrue, length, map};
ghost use Rattle.faaslet_meaning.specs.Fresh.{all_over};
ghost use Rattle.faaslet_meaning.specs.Memory.{over};
ghost use Rattle.proto_faaslet.specs.Instances.{element_of, Fits};

use crate::constants::value;
use faaslet_meaning::Element;

fn element_fits(globals: &[u64], element: &Element, size: usize) -> bool
    ensures { IsTrue result ↔ Fits size (element_of globals.now element.now) }
{
    let at = value(globals, element.offset.as_slice());
    let count = element.functions.as_slice().len();
    count <= size && at <= (size - count) as u64
}

/// Whether all elements fit into a table of this size.
pub fn elements_fit(globals: &[u64], elements: &[Element], size: usize) -> bool
    ensures { IsTrue result ↔ All (λ e. Fits size (element_of globals.now e)) elements.now }
{
    elements.iter().all(|e| element_fits(globals, e, size))
}

fn put_functions(table: &mut [Option<u32>], at: usize, functions: &[u32])
    requires { at + length functions.now ≤ length table.old }
    ensures { table.new ≡ over table.old at (map (λ f. Some f) functions.now) }
{
    for (k, f) in functions.iter().enumerate() {
        table[at + k] = Some(*f);
    }
}

fn put_element(table: &mut [Option<u32>], globals: &[u64], element: &Element)
    requires { Fits (length table.old) (element_of globals.now element.now) }
    ensures { table.new ≡ over table.old (element_of globals.now element.now).0 (element_of globals.now element.now).1 }
{
    let at = value(globals, element.offset.as_slice());
    put_functions(table, at as usize, element.functions.as_slice());
}

/// Puts all elements into the table, one after the other.
pub fn put_elements(table: &mut [Option<u32>], globals: &[u64], elements: &[Element])
    requires { All (λ e. Fits (length table.old) (element_of globals.now e)) elements.now }
    ensures { table.new ≡ all_over table.old (map (element_of globals.now) elements.now) }
{
    for element in elements {
        put_element(table, globals, element);
    }
}
