//! Laws of the definitions. Each function is empty: what it ensures is the law.
ghost use Rattle.std.specs.Prelude.{◌≡◌, ℕ, List};
ghost use Rattle.report_texts.specs.Reports.{IsReport};
ghost use Rattle.report_texts.specs.declared.lines.ReportLine.{ReportLine};

/// A text is one report at most.
pub fn one_report()
    ensures { (text : List ℕ) (one other : List ReportLine) → IsReport one text → IsReport other text → one ≡ other }
{}
