// Document 02, S-8: standard input is a file of today's records, standard output gets them in the old form.
#![tactic(auto)]

use record::Form;

fn main() {
    record_stream::convert_input(Form::Old);
}
