//! Words of command lines: options, flags and what stands alone, as data, and the arguments that they become.
ghost use Rattle.std.specs.Prelude.{◌≡◌, ◌∷◌, [], IfOk, Some, false, map};
ghost use Rattle.clap.specs.Words.{App, rule_of};
ghost use Rattle.clap.specs.declared.builder.action.ArgAction.TheVariants.{Set};
ghost use Rattle.clap.specs.declared.builder.value_parser.ValueParser.TheVariants.{NonEmptyString};
ghost use Rattle.edit_words.specs.Rules.{with_rules};
ghost use Rattle.edit_words.specs.Tables.{IsLocal, form_rule, arg_rule};

use clap::builder::ValueParser;
use clap::{Arg, ArgAction, Command};
use std::alloc::{AllocError, Global};

/// The form of an argument, and what help calls its value.
#[derive(Clone, Copy)]
pub(crate) enum Form<'a> {
    /// A value that stands alone.
    Alone(&'a str),
    /// An option that may be given, with a value that is not empty.
    Path(&'a str),
    /// An option that must be given, with a value that is not empty.
    Needed(&'a str),
    /// An option that may be given, with a value.
    Choice(&'a str),
    /// An option that may be given, with `true` or `false`.
    Truth(&'a str),
    /// An option that may be given any number of times, each time with a value that is not empty.
    List(&'a str),
    /// A flag.
    Flag,
    /// A flag of which the uses are counted.
    Counted,
}

/// An argument of a command line.
#[derive(Clone, Copy)]
pub(crate) struct ArgSpec<'a> {
    pub(crate) id: &'a str,
    pub(crate) form: Form<'a>,
    pub(crate) about: &'a str,
    pub(crate) letter: Option<char>,
    /// The value of an option that is not given.
    pub(crate) default: Option<&'a str>,
}

/// An argument with neither a letter nor a default.
pub(crate) fn plain<'a>(id: &'a str, form: Form<'a>, about: &'a str) -> ArgSpec<'a>
    ensures { arg_rule result ≡ form_rule form.entry id.entry.now }
{
    ArgSpec {
        id,
        form,
        about,
        letter: None,
        default: None,
    }
}

impl<'a> ArgSpec<'a> {
    /// With a letter.
    pub(crate) fn short(mut self, letter: char) -> ArgSpec<'a>
        ensures { arg_rule result ≡ record (arg_rule self.entry) { short = Some letter } }
    {
        self.letter = Some(letter);
        self
    }

    /// With a value where it is not given.
    pub(crate) fn default_value(mut self, value: &'a str) -> ArgSpec<'a>
        ensures { arg_rule result ≡ record (arg_rule self.entry) { defaults = value.entry.now ∷ [] } }
    {
        self.default = Some(value);
        self
    }
}

/// An argument with a value.
fn valued_arg<'a>(
    arg: Arg<'a>,
    value: &'a str,
    action: ArgAction,
    parser: ValueParser<'a>,
) -> Arg<'a>
    ensures rule { rule_of result ≡ record (rule_of arg.entry) {
      action = Some action;
      value_names = 1;
      parser = Some parser.entry;
    } }
    ensures local { result.global ≡ arg.entry.global }
{
    arg.value_name(value).action(action).value_parser(parser)
}

/// An argument with a value that is not empty.
fn path<'a>(arg: Arg<'a>, value: &'a str) -> Arg<'a>
    ensures rule { rule_of result ≡ record (rule_of arg.entry) {
      action = Some Set;
      value_names = 1;
      parser = Some NonEmptyString;
    } }
    ensures local { result.global ≡ arg.entry.global }
{
    valued_arg(arg, value, ArgAction::Set, ValueParser::NonEmptyString)
}

/// The argument for `clap`, without its letter and its default.
fn arg_of_form<'a>(alloc: Global, arg_spec: ArgSpec<'a>) -> Arg<'a>
    ensures rule { rule_of result ≡ form_rule arg_spec.entry.form arg_spec.entry.id.now }
    ensures local { result.global ≡ false }
{
    let id = arg_spec.id;
    let arg = Arg::new(alloc, id).help(arg_spec.about);
    match arg_spec.form {
        Form::Alone(value) => valued_arg(arg, value, ArgAction::Set, ValueParser::String),
        Form::Path(value) => path(arg.long(id), value),
        Form::Needed(value) => path(arg.long(id), value).required(true),
        Form::Choice(value) => valued_arg(arg.long(id), value, ArgAction::Set, ValueParser::String),
        Form::Truth(value) => valued_arg(arg.long(id), value, ArgAction::Set, ValueParser::Bool),
        Form::List(value) => valued_arg(
            arg.long(id),
            value,
            ArgAction::Append,
            ValueParser::NonEmptyString,
        ),
        Form::Flag => arg.long(id).action(ArgAction::SetTrue),
        Form::Counted => arg.long(id).action(ArgAction::Count),
    }
}

/// The argument for `clap`.
fn to_clap_arg<'a>(alloc: Global, arg_spec: ArgSpec<'a>) -> Arg<'a>
    ensures rule { rule_of result ≡ arg_rule arg_spec.entry }
    ensures local { result.global ≡ false }
{
    let arg = arg_of_form(alloc, arg_spec);
    match (arg_spec.letter, arg_spec.default) {
        (None, None) => arg,
        (Some(letter), None) => arg.short(letter),
        (None, Some(value)) => arg.default_value(value),
        (Some(letter), Some(value)) => arg.short(letter).default_value(value),
    }
}

/// Adds arguments, in their order. The command may have failed already: so a caller that adds more than once
/// has no exit between, at which what it holds would be dropped.
pub(crate) fn with_args<'a>(
    alloc: Global,
    command: Result<Command<'a>, AllocError>,
    arg_specs: &[ArgSpec<'a>],
) -> Result<Command<'a>, AllocError>
    ensures { (app : App) → IfOk command.entry (IsLocal app)
        → IfOk result (IsLocal (with_rules app (map arg_rule arg_specs.now))) }
{
    let mut command = command?;
    for arg_spec in arg_specs {
        command = command.arg(to_clap_arg(alloc, *arg_spec))?;
    }
    Ok(command)
}
