// Session scripts: reading one line of a script into a command.
#![tactic(auto)]
// The heap goes to each function that allocates, as the library has it. Text and algebra stand beside it, since a struct with the text would be
// made anew for each part of a text, and most functions that take the heap know no algebra.

mod commands;
mod errors;
mod fields;
mod names;
mod numbers;
mod printing;
mod words;

pub use commands::{Command, read_command};
pub use errors::ReadError;
pub use fields::{Codes, LineFields};
pub use names::{AlgebraName, TypeWord};
pub use numbers::{number_of, read_numbers};
pub use words::next_word;

#[cfg(test)]
mod tests {
    use super::*;
    use std::alloc::Global;
    use std::test::Fail;

    // What a line says in the algebra of counts, or what is wrong with it.
    fn told(heap: Global, text: &str) -> Result<String, Fail> {
        match read_command(heap, AlgebraName::Counts, text) {
            Ok(command) => Ok(format!(in heap; "{command:?}")?),
            Err(error) => Ok(error.to_string(heap)?),
        }
    }

    #[test]
    fn a_comment_says_nothing(rt: HostRuntime) -> Result<(), Fail> {
        assert!(rt; told(rt.alloc(), " \t\r")?.as_str() == "Nothing");
        assert!(rt; told(rt.alloc(), "\t#close")?.as_str() == "Nothing");
        assert!(rt;
            told(rt.alloc(), "close # now")?.as_str()
                == "'#' is one word too many (expected the end of the line)"
        );
        Ok(())
    }

    #[test]
    fn fields_come_in_any_order(rt: HostRuntime) -> Result<(), Fail> {
        let text = told(
            rt.alloc(),
            "line operands=[0,1] kind=operator shape=[4294967296] codes=@a=b slip=7 function=mul\r",
        )?;
        assert!(rt;
            text.as_str()
                == "Line(LineFields { slip: Some(7), kind: 3, base: 0, function: 2, shape: [4294967295], operands: [0, 1], codes: File(\"a=b\") })"
        );
        let text = told(rt.alloc(), "line kind=0 kind=0")?;
        assert!(rt;
            text.as_str() == "'kind' is given more than once (expected each field at most once)"
        );
        Ok(())
    }

    #[test]
    fn types_have_axes(rt: HostRuntime) -> Result<(), Fail> {
        let text = told(rt.alloc(), "open count[3,2]  flag[] 7[4]")?;
        assert!(rt;
            text.as_str()
                == "Open([TypeWord { base: 0, axes: [3, 2] }, TypeWord { base: 1, axes: [] }, TypeWord { base: 7, axes: [4] }])"
        );
        let text = told(rt.alloc(), "open count[3")?;
        assert!(rt;
            text.as_str()
                == "'count[3' has no list in brackets (expected numbers as in [1,2,3], or [])"
        );
        Ok(())
    }

    #[test]
    fn numbers_are_below_their_bounds(rt: HostRuntime) -> Result<(), Fail> {
        assert!(rt;
            told(rt.alloc(), "store 18446744073709551615")?.as_str()
                == "Store(18446744073709551615)"
        );
        assert!(rt;
            told(rt.alloc(), "run 5000000000 codes=[1]")?.as_str() == "Run(4294967295, Given([1]))"
        );
        let file = read_numbers(rt.alloc(), "1,2\r\n\n 18446744073709551615\t")?;
        assert!(rt; file.as_slice() == [1, 2, 18446744073709551615].as_slice());
        assert_eq!(rt; number_of("18446744073709551616"), None);
        assert_eq!(rt; number_of("+1"), None);
        assert_eq!(rt; number_of(""), None);
        assert_eq!(rt; number_of("007"), Some(7));
        Ok(())
    }
}
