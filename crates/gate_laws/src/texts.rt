//! Limits of texts.

ghost use Rattle.std.specs.Prelude.{◌≡◌};
ghost use Rattle.scaled_numbers.specs.declared.limits.TheConstants.{MAX_TEXT_BYTES as MAX_NUMBER_BYTES};
ghost use Rattle.snd_lexer.specs.declared.limits.TheConstants.{MAX_TEXT_BYTES};
ghost use Rattle.snd_network.specs.declared.limits.TheConstants.{MAX_NAME_BYTES};
ghost use Rattle.cert_format.specs.declared.limits.TheConstants.{MAX_PLAN_BYTES, MAX_LISTS};
ghost use Rattle.command_texts.specs.declared.texts.TheConstants.{MAX_TEXT_BYTES as MOST_TEXT_BYTES};
ghost use Rattle.plan_report.specs.declared.check_lines.TheConstants.{LOAD_SCALE};
ghost use Rattle.plan_report.specs.declared.verdict_lines.TheConstants.{COST_SCALE};
ghost use Rattle.picture_marks.specs.declared.marks.TheConstants.{LOAD_SCALE as PICTURE_SCALE};
ghost use Rattle.run_progress.specs.declared.line.TheConstants.{COST_SCALE as PROGRESS_SCALE};

/// The most bytes of a number, of a network or model text, of one that is read for a command, of a name in it, and of a
/// plan text; and the most price lists of that one.
pub fn lengths_of_texts()
    ensures number { MAX_NUMBER_BYTES ≡ 8388608 }
    ensures text { MAX_TEXT_BYTES ≡ 8388608 }
    ensures read { MOST_TEXT_BYTES ≡ 8388608 }
    ensures name { MAX_NAME_BYTES ≡ 64 }
    ensures plan { MAX_PLAN_BYTES ≡ 536870912 }
    ensures lists { MAX_LISTS ≡ 4097 }
{}

/// How many places behind the point a load and a cost have in lines, a load in a picture, and a cost in the line that says
/// how far a run is.
pub fn scales_of_lines()
    ensures load { LOAD_SCALE ≡ 6 }
    ensures picture { PICTURE_SCALE ≡ 6 }
    ensures cost { COST_SCALE ≡ 12 }
    ensures progress { PROGRESS_SCALE ≡ 12 }
{}
