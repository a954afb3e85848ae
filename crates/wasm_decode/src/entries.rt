//! What holds an expression: globals, elements, code and data. W3C WebAssembly Core Specification 1.0,
//! section 5.5.

ghost use Rattle.std.specs.Prelude.{◌≡◌};
ghost use Rattle.wasm_code.specs.Reading.{GivesOrWants};
ghost use Rattle.faaslet_meaning.specs.ModuleReading as modules;

use crate::names::{blob_at, copied};
use crate::parts::global_type_at;
use crate::vectors::{Part, vec_at};
use faaslet_meaning::{Body, Element, GlobalDef, Segment};
use std::alloc::Global;
use wasm_code::{BodyFault, expression_at, read_body, u32_at};

impl Part for GlobalDef {
    type Value = GlobalDef;

    ghost at = { modules.global_def_at };

    #[tactic(auto, unfolding(faaslet_meaning::specs::ModuleReading::global_def_at))]
    fn read(alloc: Global, bytes: &[u8]) -> Result<(GlobalDef, &[u8]), BodyFault> {
        let (kind, rest) = global_type_at(bytes)?;
        let (init, rest) = expression_at(alloc, rest)?;
        Ok((GlobalDef { kind, init }, rest))
    }
}

impl Part for Element {
    type Value = Element;

    ghost at = { modules.element_at };

    #[tactic(auto, unfolding(faaslet_meaning::specs::ModuleReading::element_at))]
    fn read(alloc: Global, bytes: &[u8]) -> Result<(Element, &[u8]), BodyFault> {
        let (table, rest) = u32_at(bytes)?;
        let (offset, rest) = expression_at(alloc, rest)?;
        let (functions, rest) = vec_at::<u32>(alloc, rest)?;
        Ok((
            Element {
                table,
                offset,
                functions,
            },
            rest,
        ))
    }
}

/// The body that fills the bytes of a code entry.
fn body_of(alloc: Global, content: &[u8]) -> Result<Body, BodyFault>
    ensures { GivesOrWants (λ x. x) result (modules.whole (modules.entry_at content.now)) }
{
    read_body(alloc, content)
}

/// A code entry: a size, and so many bytes, which are a body.
impl Part for Body {
    type Value = Body;

    ghost at = { modules.body_at };

    #[tactic(auto, unfolding(faaslet_meaning::specs::ModuleReading::body_at, faaslet_meaning::specs::ModuleReading::sized_at))]
    fn read(alloc: Global, bytes: &[u8]) -> Result<(Body, &[u8]), BodyFault> {
        let (content, rest) = blob_at(bytes)?;
        let body = body_of(alloc, content)?;
        Ok((body, rest))
    }
}

impl Part for Segment {
    type Value = Segment;

    ghost at = { modules.segment_at };

    #[tactic(auto, unfolding(faaslet_meaning::specs::ModuleReading::segment_at))]
    fn read(alloc: Global, bytes: &[u8]) -> Result<(Segment, &[u8]), BodyFault> {
        let (memory, rest) = u32_at(bytes)?;
        let (offset, rest) = expression_at(alloc, rest)?;
        let (content, rest) = blob_at(rest)?;
        let bytes = copied(alloc, content)?;
        Ok((
            Segment {
                memory,
                offset,
                bytes,
            },
            rest,
        ))
    }
}
