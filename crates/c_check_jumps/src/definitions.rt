// Which objects and functions a file defines.
#![tactic(auto, using(c_syntax_written::proofs::Trees::the_written_trees, crate::proofs::Finding::the_ends))]

ghost use Rattle.std.specs.Prelude.{◌≡◌, ◌++◌, ◌||◌, ◌&&◌, flat_map, is_some, map, not, OnOk};
ghost use Rattle.c_syntax_written.specs.Written.{SpecTrees, declarator_tree, specs_tree};
ghost use Rattle.c_syntax_written.specs.WrittenDecl.{initdeclarator_tree};
ghost use Rattle.c_syntax_written.specs.WrittenFile.{outer_tree};
ghost use Rattle.c_typing.specs.Context as contexts;

use crate::declarators::{is_function_declarator, name_in};
use crate::name_set::NameSet;
use crate::storage::has_storage;
use c_syntax_written::{Decl, Declarator, File, InitDeclarator, Outer, StorageWord};
use std::alloc::{AllocError as NoMemory, Global};

/// The names of the objects and of the functions that a file defines, in the order of the text.
#[derive(Drop)]
pub struct FileNames {
    pub objects: NameSet,
    pub functions: NameSet,
}

impl FileNames {
    ghost use Rattle.std.specs.Prelude.{◌≡◌, ◌++◌, IfOk, OnOk};
    ghost use Rattle.c_syntax_written.specs.WrittenFile.{file_tree, outer_tree};
    ghost use Rattle.c_typing.specs.Context as contexts;

    /// What a file defines.
    pub fn of(alloc: Global, file: &File) -> Result<FileNames, NoMemory>
        ensures objects { IfOk result (λ names. names.objects ≡ (contexts.file_context (file_tree file.now)).objects) }
        ensures functions { IfOk result (λ names. names.functions ≡ (contexts.file_context (file_tree file.now)).functions) }
    {
        let outers = file.outers.as_slice();
        let mut objects = NameSet::new(alloc);
        let mut functions = NameSet::new(alloc);
        'each: for outer in outers {
            add_outer(&mut objects, &mut functions, outer)?;
        }
        Ok(FileNames { objects, functions })
    }
}

// Adds what a declaration or a function of the file defines.
fn add_outer(objects: &mut NameSet, functions: &mut NameSet, outer: &Outer) -> Result<(), NoMemory>
    ensures objects { OnOk result (objects.new ≡ objects.old ++ contexts.objects_defined_by (outer_tree outer.now)) }
    ensures functions { OnOk result (functions.new ≡ functions.old ++ contexts.functions_defined_by (outer_tree outer.now)) }
{
    match outer {
        Outer::Declared(decl) => add_objects(objects, decl),
        Outer::Function { declarator, .. } => add_name(functions, declarator),
    }
}

// Adds the objects that a declaration defines.
fn add_objects(objects: &mut NameSet, decl: &Decl) -> Result<(), NoMemory>
    ensures { OnOk result (objects.new ≡ objects.old
        ++ flat_map (contexts.objects_by (specs_tree decl.now.specs)) (map initdeclarator_tree decl.now.inits)) }
{
    let storage = StorageHere {
        is_typedef: has_storage(StorageWord::Typedef, &decl.specs),
        is_extern: has_storage(StorageWord::Extern, &decl.specs),
    };
    let items = decl.inits.as_slice();
    'each: for item in items {
        add_object(objects, storage, item)?;
    }
    Ok(())
}

// Which of the words that matter here specs have.
#[derive(Clone, Copy)]
struct StorageHere {
    is_typedef: bool,
    is_extern: bool,
}

// Adds the object that a declarator defines, if it defines one.
fn add_object(
    objects: &mut NameSet,
    storage: StorageHere,
    item: &InitDeclarator,
) -> Result<(), NoMemory>
    ensures { (specs : SpecTrees) → storage.is_typedef ≡ contexts.has_storage StorageWord.Typedef specs
        → storage.is_extern ≡ contexts.has_storage StorageWord.Extern specs
        → OnOk result (objects.new ≡ objects.old ++ contexts.objects_by specs (initdeclarator_tree item.now)) }
{
    if defines_none(storage, item) {
        return Ok(());
    }
    add_name(objects, &item.declarator)
}

// Whether it is a typedef name or a function, or `extern` without an initialiser.
fn defines_none(storage: StorageHere, item: &InitDeclarator) -> bool
    ensures { result ≡ (storage.is_typedef || (contexts.is_function_declarator (declarator_tree item.now.declarator)
        || (storage.is_extern && not (is_some item.now.init)))) }
{
    storage.is_typedef
        || (is_function_declarator(&item.declarator) || (storage.is_extern && item.init.is_none()))
}

// Adds the name that a declarator has, if it has one.
fn add_name(names: &mut NameSet, declarator: &Declarator) -> Result<(), NoMemory>
    ensures { OnOk result (names.new ≡ names.old ++ contexts.to_names (contexts.name_in (declarator_tree declarator.now))) }
{
    match name_in(declarator) {
        None => Ok(()),
        Some(name) => names.push(name),
    }
}
