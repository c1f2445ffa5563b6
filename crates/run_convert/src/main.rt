// Document 02, S-8: standard input is a file of old records, standard output gets them in today's form.
#![tactic(auto)]

use record::Form;

fn main() {
    record_stream::convert_input(Form::This);
}
