use faaslet_meaning::{
    Body, Export, ExportKind, FuncType, Instr, Items, LocalGroup, Module, ValType,
};
use std::alloc::{AllocError, Global};
use std::test::Fail;
use wasm_validate::*;

/// Bodies and names of exports, and why a module of them is refused.
type Row = (
    &'static [&'static [u8]],
    &'static [&'static [u8]],
    Option<Invalid>,
);

const FINE: &[u8] = &[0x41, 0x0B];

const UNTYPED: &[u8] = &[0x0B];

const IF_ELSE: &[u8] = &[0x41, 0x04, 0x41, 0x05, 0x41, 0x0B, 0x0B];

const ROWS: [Row; 10] = [
    (&[], &[], None),
    (&[&[0x41, 0x41, 0x6A, 0x0B]], &[], None),
    (&[IF_ELSE], &[b"main"], None),
    (&[&[0x00, 0x6A, 0x0B]], &[], None),
    (
        &[&[0x00, 0x42, 0x6A, 0x0B]],
        &[],
        Some(Invalid::Function(0)),
    ),
    (&[&[0x20, 0xA7, 0x0B]], &[], None),
    (&[&[0x21, 0x0B]], &[], Some(Invalid::Function(0))),
    (&[FINE, UNTYPED], &[], Some(Invalid::Function(1))),
    (&[UNTYPED, UNTYPED], &[], Some(Invalid::Function(0))),
    (&[FINE], &[b"a", b"b", b"a"], Some(Invalid::Module)),
];

/// The instruction of this opcode, with numbers of its own.
fn instr_of(opcode: u8) -> Instr {
    match opcode {
        0x00 => Instr::Unreachable,
        0x04 => Instr::If(Some(ValType::I32)),
        0x05 => Instr::Else,
        0x0B => Instr::End,
        0x20 => Instr::LocalGet(2),
        0x21 => Instr::LocalGet(3),
        0x41 => Instr::I32Const(7),
        0x42 => Instr::I64Const(7),
        _ => Instr::Num(opcode),
    }
}

/// A body with the locals i32, i32 and i64.
fn body_of(alloc: Global, opcodes: &[u8]) -> Result<Body, AllocError> {
    let mut code = Vec::new(alloc);
    for opcode in opcodes {
        code.push(instr_of(*opcode))?;
    }
    let mut locals = Vec::new(alloc);
    for (count, kind) in [(2, ValType::I32), (0, ValType::I32), (1, ValType::I64)] {
        locals.push(LocalGroup { count, kind })?;
    }
    Ok(Body {
        locals: Items::of(locals),
        code: Items::of(code),
    })
}

/// The one type, from nothing to an i32.
fn types_of(alloc: Global) -> Result<Vec<FuncType>, AllocError> {
    let mut results = Vec::new(alloc);
    results.push(ValType::I32)?;
    let mut types = Vec::new(alloc);
    types.push(FuncType {
        params: Items::of(Vec::new(alloc)),
        results: Items::of(results),
    })?;
    Ok(types)
}

/// Function 0 by these names.
fn exports_of(alloc: Global, names: &[&[u8]]) -> Result<Vec<Export>, AllocError> {
    let mut exports = Vec::new(alloc);
    for name in names {
        exports.push(Export {
            name: Items::of(Vec::from_slice(alloc, *name)?),
            kind: ExportKind::Function,
            index: 0,
        })?;
    }
    Ok(exports)
}

fn module_of(alloc: Global, codes: &[&[u8]], names: &[&[u8]]) -> Result<Module, AllocError> {
    let mut functions = Vec::new(alloc);
    let mut bodies = Vec::new(alloc);
    for code in codes {
        functions.push(0)?;
        bodies.push(body_of(alloc, *code)?)?;
    }
    Ok(Module {
        types: Items::of(types_of(alloc)?),
        imports: Items::of(Vec::new(alloc)),
        functions: Items::of(functions),
        tables: Items::of(Vec::new(alloc)),
        memories: Items::of(Vec::new(alloc)),
        globals: Items::of(Vec::new(alloc)),
        exports: Items::of(exports_of(alloc, names)?),
        start: None,
        elements: Items::of(Vec::new(alloc)),
        bodies: Items::of(bodies),
        segments: Items::of(Vec::new(alloc)),
    })
}

/// Why the module is refused, and whether it is handed back as it was.
fn answered(alloc: Global, row: &Row) -> Result<(Option<Invalid>, bool), AllocError> {
    let same = module_of(alloc, row.0, row.1)?;
    match validate(alloc, module_of(alloc, row.0, row.1)?) {
        Ok(valid) => Ok((None, *valid.module() == same)),
        Err(refused) => Ok((Some(refused.fault), refused.module == same)),
    }
}

#[test]
fn modules_are_told(rt: HostRuntime) -> Result<(), Fail> {
    for (i, row) in ROWS.iter().enumerate() {
        assert_eq!(rt; answered(rt.alloc(), row)?, (row.2, true), "row {i}");
    }
    Ok(())
}

#[test]
fn jumps_of_an_if(rt: HostRuntime) -> Result<(), Fail> {
    let Ok(valid) = validate(rt.alloc(), module_of(rt.alloc(), &[FINE, IF_ELSE], &[])?) else {
        panic!(rt; "refused");
    };
    assert!(rt; valid.module().bodies.as_slice().len() == 2);
    assert!(rt; valid.local_count(1) == 3);
    let jumps = valid.jumps(1).as_slice();
    for (i, (after, other)) in [(7, 6), (6, 4), (6, 4), (6, 5), (6, 5), (7, 6)]
        .iter()
        .enumerate()
    {
        assert_eq!(rt;
            jumps.get(i).copied(),
            Some(Jump {
                after: *after,
                other: *other
            }),
            "at {i}"
        );
    }
    Ok(())
}
