use super::*;
use faaslet_meaning::{
    Body, Export, ExportKind, FuncType, Import, ImportKind, Instr, Items, Module, ValType,
};
use std::alloc::{AllocError, Global};
use std::test::Fail;
use wasm_validate::validate;

/// A function from nothing to an i32 behind these imports, and the export of a function under a name.
fn constant(
    alloc: Global,
    imports: Vec<Import>,
    name: &[u8],
    index: u32,
) -> Result<Module, AllocError> {
    let constant = FuncType {
        params: Items::of(Vec::new(alloc)),
        results: Items::of(vec![in alloc; ValType::I32]?),
    };
    let body = Body {
        locals: Items::of(Vec::new(alloc)),
        code: Items::of(vec![in alloc; Instr::I32Const(42), Instr::End]?),
    };
    let export = Export {
        name: Items::of(Vec::from_slice(alloc, name)?),
        kind: ExportKind::Function,
        index,
    };
    Ok(Module {
        types: Items::of(vec![in alloc; constant]?),
        imports: Items::of(imports),
        functions: Items::of(vec![in alloc; 0]?),
        tables: Items::of(Vec::new(alloc)),
        memories: Items::of(Vec::new(alloc)),
        globals: Items::of(Vec::new(alloc)),
        exports: Items::of(vec![in alloc; export]?),
        start: None,
        elements: Items::of(Vec::new(alloc)),
        bodies: Items::of(vec![in alloc; body]?),
        segments: Items::of(Vec::new(alloc)),
    })
}

/// An import of that type from the module of the host calls.
fn imports(alloc: Global, name: &[u8]) -> Result<Vec<Import>, AllocError> {
    let import = Import {
        module: Items::of(Vec::from_slice(alloc, b"faasm")?),
        name: Items::of(Vec::from_slice(alloc, name)?),
        kind: ImportKind::Function(0),
    };
    Ok(vec![in alloc; import]?)
}

fn answer(alloc: Global, module: Module) -> Option<Result<(), Unfit>> {
    match validate(alloc, module) {
        Ok(module) => Some(fits(&module)),
        Err(_) => None,
    }
}

#[test]
fn exports(rt: HostRuntime) -> Result<(), Fail> {
    let alloc = rt.alloc();
    let names: [(&[u8], Result<(), Unfit>); 2] = [(b"main", Ok(())), (b"init", Err(Unfit::NoMain))];
    for (name, want) in names {
        let module = constant(alloc, Vec::new(alloc), name, 0)?;
        assert_eq!(rt; export_of(&module, b"main").is_some(), want.is_ok());
        assert_eq!(rt; answer(alloc, module), Some(want), "{name:?}");
    }
    Ok(())
}

#[test]
fn imported_host_calls(rt: HostRuntime) -> Result<(), Fail> {
    let alloc = rt.alloc();
    let names: [(&[u8], Result<(), Unfit>); 3] = [
        (b"input_size", Ok(())),
        (b"output_size", Err(Unfit::BadImport(0))),
        (b"input_sizes", Err(Unfit::BadImport(0))),
    ];
    for (name, want) in names {
        let module = constant(alloc, imports(alloc, name)?, b"main", 1)?;
        assert_eq!(rt; answer(alloc, module), Some(want), "{name:?}");
    }
    Ok(())
}
