// What stands round a part of a file.
#![tactic(auto)]

use crate::definitions::FileNames;
use crate::name_set::NameSet;
use c_syntax::{CType, IntType};

/// A function whose body is typed: its labels in the order of the text, and its result.
#[derive(Drop)]
pub struct Function {
    pub labels: NameSet,
    pub result: CType,
}

/// What stands round a part of a file: which names the file defines, and the function, if it is in one; whether a
/// declaration stands in a block; and whether a statement may be a `break`, a `continue`, or a case of a switch of this
/// type.
#[derive(Clone, Copy)]
pub struct Context<'t> {
    pub file: &'t FileNames,
    pub function: Option<&'t Function>,
    pub in_block: bool,
    pub breaks: bool,
    pub continues: bool,
    pub switch: Option<IntType>,
}

impl<'t> Context<'t> {
    ghost use Rattle.std.specs.Prelude.{◌≡◌, position};
    ghost use Rattle.std.specs.Str.{bytes_eq};
    ghost use Rattle.c_syntax.specs.Types.{ctype_tree};
    ghost use Rattle.c_syntax_written.specs.WrittenFile.{BlockItemTrees, FileTree};
    ghost use Rattle.c_typing.specs.Context as contexts;
    ghost use Rattle.c_check_jumps.specs.ContextViews.{context_tree};

    /// Outside of all functions.
    pub fn of_file(file: &'t FileNames) -> Context<'t>
        ensures { (text : FileTree) → file.now.objects ≡ (contexts.file_context text).objects
            → file.now.functions ≡ (contexts.file_context text).functions → context_tree result ≡ contexts.file_context text }
    {
        Context {
            file,
            function: None,
            in_block: false,
            breaks: false,
            continues: false,
            switch: None,
        }
    }

    /// The body of a function.
    pub fn in_function(self, function: &'t Function) -> Context<'t>
        ensures { (body : BlockItemTrees) → function.now.labels ≡ contexts.written_labels_in body
            → context_tree result ≡ contexts.in_function (ctype_tree function.now.result) body (context_tree self.entry) }
    {
        Context {
            function: Some(function),
            in_block: true,
            ..self
        }
    }

    /// The number of a label of the function.
    pub fn label(self, name: &[u8]) -> Option<u64>
        ensures { result ≡ position (λ label. bytes_eq label name.now) (context_tree self.entry).labels }
    {
        match self.function {
            None => None,
            Some(function) => function.labels.place(name),
        }
    }

    /// An item of a block, or a substatement that is none of a switch.
    pub fn inside_block(self) -> Context<'t>
        ensures { context_tree result ≡ contexts.inside_block (context_tree self.entry) }
    {
        Context {
            switch: None,
            ..self
        }
    }

    /// The body of a loop.
    pub fn inside_loop(self) -> Context<'t>
        ensures { context_tree result ≡ contexts.inside_loop (context_tree self.entry) }
    {
        Context {
            breaks: true,
            continues: true,
            switch: None,
            ..self
        }
    }

    /// The body of a switch whose cases have this type.
    pub fn inside_switch(self, t: IntType) -> Context<'t>
        ensures { context_tree result ≡ contexts.inside_switch t (context_tree self.entry) }
    {
        Context {
            breaks: true,
            switch: Some(t),
            ..self
        }
    }
}
