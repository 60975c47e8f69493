//! The laws above the cases of a call.
ghost use Rattle.command_laws.specs.Laws.{BasesFit, CasesAreAnswers, PassesAreExact, RunsAreMeant, RunsEndOnce, UncaughtIsSurveyed, ValuesKeepTheirSize, WordsHaveOneForm};
ghost use Rattle.command_rules.specs.Complete.{OneCaseComes};
ghost use Rattle.command_rules.specs.Order.{FormsKeep, NeverAnswered, OrderIsKept};

use command_rules::checked_texts::{
    definitions_come_to_one, programs_come_to_one, texts_begin_once, texts_have_one_tree,
};
use command_rules::linked_programs::{singles_are_one, trees_are_one};
use depth_laws::{depths_do_not_matter, surveys_are_one};
use include_rules::plans_come_once;
use loader_rules::{loads_are_alike, loads_come_once};
use machine_ready::ordered_can_run;
use read_files::images_of_files_are_in_order;
use survey_rules::uncaught_signals_escape;

/// A law: where the files of a folder are told, one thing comes of each pass, and after the same files.
pub fn passes_are_exact()
    ensures { PassesAreExact }
{
    texts_begin_once();
    programs_come_to_one();
    definitions_come_to_one();
    trees_are_one();
    singles_are_one();
    texts_have_one_tree();
    plans_come_once();
    depths_do_not_matter();
    surveys_are_one();
    loads_come_once();
    loads_are_alike();
}

/// A law: what is configured has as many bases as modules.
pub fn bases_fit()
    ensures { BasesFit }
{}

/// A law: `go` looks at sizes before it names an item that is none of the host's, and writes nothing before both; nothing is run before all is written.
pub fn order_is_kept()
    ensures { OrderIsKept }
{}

/// A law: `list`, `plan`, `survey`, `run` and `exercise` change no file, all forms but `run` and `go` leave the input, those that write a file alone leave `out`,
/// those that run nothing the steps, and `exercise` the folder.
pub fn forms_keep()
    ensures { FormsKeep }
{}

/// A law: which forms never answer that the input, `out` or the folder failed, or that a file is too large.
pub fn never_answered()
    ensures { NeverAnswered }
{}

/// A law: what a file holds has as many bytes in version 2 as that file, so `upgrade` writes no file that is too large.
pub fn values_keep_their_size()
    ensures { ValuesKeepTheirSize }
{}

/// A law: a command line has one form at most.
pub fn words_have_one_form()
    ensures { WordsHaveOneForm }
{}

/// A law: over an input that is told, the run of what was configured ends in one way where no call failed.
pub fn runs_end_once()
    ensures { RunsEndOnce }
{}

/// A law: how the machine runs an image that is linked from checked modules is how the run of their program ends.
pub fn runs_are_meant()
    ensures { RunsAreMeant }
{}

/// A law: where `run` says that nothing caught a signal, each survey of the same file lists that signal. So where a survey says that no signal escapes, no run of
/// that file says so.
pub fn uncaught_is_surveyed()
    ensures { UncaughtIsSurveyed }
{
    uncaught_signals_escape();
    depths_do_not_matter();
    ordered_can_run();
    images_of_files_are_in_order();
}

/// A law: for words, files and an input that are told one case comes where no call failed, want of memory aside.
pub fn one_case()
    ensures { OneCaseComes }
{
    passes_are_exact();
    depths_do_not_matter();
    loads_are_alike();
}

/// A law: a case that comes of the words, with its status and line, is an answer to them.
pub fn cases_are_answers()
    ensures { CasesAreAnswers }
{
    passes_are_exact();
    depths_do_not_matter();
    loads_are_alike();
}
