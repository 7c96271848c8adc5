// Alarms, and a list of them.
#![tactic(auto, using(std::proofs::lemmas::List::append_assoc))]

ghost use Rattle.std.specs.Prelude.{◌≡◌, ◌++◌, IfOk, OnOk, map, option_and_then, Some, codes};
ghost use Rattle.std.specs.List.{flat_map};
ghost use Rattle.c_syntax.specs.Program.{tfunction_tree, tprogram_tree};
ghost use Rattle.c_syntax.specs.Types.{object_tree};
ghost use Rattle.report_alarms.specs.ReportText.{alarm_text, chain_text, facts_text, function_name, head_text, kind_text, lines_text, place_text, placed_text, text_of};
ghost use Rattle.report_alarms.specs.Sources.{told_by};
ghost use Rattle.report_alarms.specs.Told.{called_from, told_of};

use crate::callees::Callees;
use crate::facts::put_facts;
use crate::operands::{kind_name, put_example, put_placed};
use crate::shown::put_shown;
use crate::text::{Phrase, Text};
use c_rules_calls::CallGraph;
use c_syntax::{Alarm, Fact, Object, Pos, TFunction, TProgram, WrongKind};
use std::alloc::{AllocError as NoMemory, Global};

/// What is told of a program, and the number of main.
#[derive(Clone, Copy)]
pub(crate) struct Source<'p> {
    pub objects: &'p [Object],
    pub functions: &'p [TFunction],
    pub callees: &'p Callees,
    pub main: u64,
}

/// The text of a list of alarms on the file of this name, where `main` is the number of the program's main function.
/// Facts are told where `state` says so. The only error is want of memory.
pub fn alarms_text(
    alloc: Global,
    name: &str,
    program: &TProgram,
    main: u64,
    state: bool,
    alarms: &[Alarm],
) -> Result<Vec<u8>, NoMemory>
    ensures { IfOk result (λ text. text.items ≡ text_of name.now (told_of (tprogram_tree program.now) main) state alarms.now) }
{
    let graph = CallGraph::of(alloc, program)?;
    let callees = Callees::of(alloc, &graph)?;
    let source = Source {
        objects: program.objects.as_slice(),
        functions: program.functions.as_slice(),
        callees: &callees,
        main,
    };
    let mut text = Text::new(alloc);
    put_alarms(&mut text, name, source, state, alarms)?;
    Ok(text.into_bytes())
}

fn put_alarms(
    text: &mut Text,
    name: &str,
    source: Source<'_>,
    state: bool,
    alarms: &[Alarm],
) -> Result<(), NoMemory>
    ensures { OnOk result (text.new ≡ text.old ++ text_of name.now (told_by source.entry) state alarms.now) }
{
    if alarms.is_empty() {
        return text.phrase(Phrase::NoAlarm);
    }
    put_each(text, name, source, state, alarms)?;
    text.word("alarms ")?;
    text.number(alarms.len() as u64)?;
    text.word("\n")
}

fn put_each(
    text: &mut Text,
    name: &str,
    source: Source<'_>,
    state: bool,
    alarms: &[Alarm],
) -> Result<(), NoMemory>
    ensures { OnOk result (text.new ≡ text.old ++ flat_map (alarm_text name.now (told_by source.entry) state) alarms.now) }
{
    let mut left = alarms;
    'each: while let Some((alarm, rest)) = left.split_first() {
        put_alarm(text, name, source, state, alarm)?;
        left = rest;
    }
    Ok(())
}

#[tactic(auto, using(std::proofs::lemmas::List::append_assoc), unfolding(crate::specs::ReportText::alarm_text))]
fn put_alarm(
    text: &mut Text,
    name: &str,
    source: Source<'_>,
    state: bool,
    alarm: &Alarm,
) -> Result<(), NoMemory>
    ensures { OnOk result (text.new ≡ text.old ++ alarm_text name.now (told_by source.entry) state alarm.now) }
{
    put_head(text, name, alarm.pos, alarm.kind)?;
    put_chain(text, source, alarm.chain.as_slice())?;
    put_lines(text, source.objects, state, alarm)
}

fn put_lines(
    text: &mut Text,
    objects: &[Object],
    state: bool,
    alarm: &Alarm,
) -> Result<(), NoMemory>
    ensures { OnOk result (text.new ≡ text.old ++ lines_text (map object_tree objects.now) state alarm.now) }
{
    text.phrase(Phrase::ShownLine)?;
    put_shown(text, objects, &alarm.check, &alarm.shown)?;
    text.phrase(Phrase::ExampleLine)?;
    put_example(text, objects, alarm.example)?;
    text.word("\n")?;
    put_facts_if(text, objects, state, alarm.facts.as_slice())
}

fn put_facts_if(
    text: &mut Text,
    objects: &[Object],
    state: bool,
    facts: &[Fact],
) -> Result<(), NoMemory>
    ensures { OnOk result (text.new ≡ text.old ++ facts_text (map object_tree objects.now) state facts.now) }
{
    if state {
        return put_facts(text, objects, facts);
    }
    Ok(())
}

fn put_head(text: &mut Text, name: &str, at: Pos, kind: WrongKind) -> Result<(), NoMemory>
    ensures { OnOk result (text.new ≡ text.old ++ head_text name.now at (kind_text kind)) }
{
    put_place(text, name, at)?;
    text.word(": ")?;
    text.word(kind_name(kind))?;
    text.phrase(Phrase::InMain)
}

fn put_place(text: &mut Text, name: &str, at: Pos) -> Result<(), NoMemory>
    ensures { OnOk result (text.new ≡ text.old ++ place_text name.now at) }
{
    text.word(name)?;
    text.word(":")?;
    text.number(at.line as u64)?;
    text.word(":")?;
    text.number(at.col as u64)
}

// The calls of a chain behind main.
fn put_chain(text: &mut Text, source: Source<'_>, chain: &[Pos]) -> Result<(), NoMemory>
    ensures { OnOk result (text.new ≡ text.old ++ chain_text (told_by source.entry).names (told_by source.entry).graph (Some source.entry.main) chain.now) }
{
    let mut caller = Some(source.main);
    let mut left = chain;
    'each: while let Some((at, rest)) = left.split_first() {
        let callee = called(source.callees, caller, *at);
        put_call(text, source.functions, callee, *at)?;
        caller = callee;
        left = rest;
    }
    Ok(())
}

fn called(callees: &Callees, caller: Option<u64>, at: Pos) -> Option<u64>
    ensures { result ≡ option_and_then (λ caller. called_from callees.now caller at) caller }
{
    callees.at(caller?, at)
}

fn put_call(
    text: &mut Text,
    functions: &[TFunction],
    callee: Option<u64>,
    at: Pos,
) -> Result<(), NoMemory>
    ensures { OnOk result (text.new ≡ text.old ++ (codes " > " ++ placed_text (function_name (map (λ function. function.name) (map tfunction_tree functions.now)) callee) at)) }
{
    text.word(" > ")?;
    put_placed(text, name_of(functions, callee), at)
}

fn name_of(functions: &[TFunction], callee: Option<u64>) -> &[u8]
    ensures { result.now ≡ function_name (map (λ function. function.name) (map tfunction_tree functions.now)) callee }
{
    match callee {
        None => &[],
        Some(number) => match functions.get(number as usize) {
            None => &[],
            Some(function) => function.name.as_slice(),
        },
    }
}
