// The light report (docs/REQUIREMENTS.md R13); all of it is in light_report.
#![tactic(auto)]

fn main() {
    light_report::columns();
}
