// Traces of a seismic channel: reading the counts of one from text, and its summary by the algebra of counts.
#![tactic(auto)]

mod folding;
mod printing;
mod reading;

pub use folding::Summary;
pub use reading::{TraceError, count_of, read_trace};

#[cfg(test)]
mod tests {
    use super::*;
    use std::alloc::Global;
    use std::test::Fail;

    // What is printed of a text: the summary of its trace, or the error.
    fn printed(heap: Global, text: &str) -> Result<String, Fail> {
        match read_trace(heap, text) {
            Ok(codes) => Ok(Summary::of(codes.as_slice()).to_string(heap)?),
            Err(error) => Ok(error.to_string(heap)?),
        }
    }

    #[test]
    fn an_empty_trace_has_no_extremes(rt: HostRuntime) -> Result<(), Fail> {
        let text = printed(rt.alloc(), "# nothing yet\n\n")?;
        assert!(rt;
            text.as_str()
                == "samples: 0\nsum: 0\nsum of squares: 0\nsmallest: none\nlargest: none\nmean: none (division by zero)"
        );
        Ok(())
    }

    #[test]
    fn comments_and_commas_part_words(rt: HostRuntime) -> Result<(), Fail> {
        let text = printed(rt.alloc(), "  # 1 2\n3, -7\t+9,,\r\n\n-1 ,2 #\n")?;
        assert!(rt;
            text.as_str()
                == "line 4: '#' is no count (expected a whole number from -2147483648 to 2147483647)"
        );
        let text = printed(rt.alloc(), "  # 1 2\n3, -7\t+9,,\r\n\n-1 ,2\n")?;
        assert!(rt;
            text.as_str()
                == "samples: 5\nsum: 6\nsum of squares: 144\nsmallest: -7\nlargest: 9\nmean: 1"
        );
        Ok(())
    }

    #[test]
    fn sums_wrap_and_extremes_are_read(rt: HostRuntime) -> Result<(), Fail> {
        let text = printed(rt.alloc(), "2147483647 1")?;
        assert!(rt;
            text.as_str()
                == "samples: 2\nsum: -2147483648\nsum of squares: 2\nsmallest: 1\nlargest: 2147483647\nmean: -1073741824"
        );
        assert_eq!(rt; count_of("-2147483648"), Some(2147483648));
        assert_eq!(rt; count_of("-0"), Some(0));
        assert_eq!(rt; count_of("2147483648"), None);
        assert_eq!(rt; count_of("-2147483649"), None);
        assert_eq!(rt; count_of("-"), None);
        Ok(())
    }

    #[test]
    fn the_first_bad_word_is_told(rt: HostRuntime) -> Result<(), Fail> {
        let text = printed(rt.alloc(), "1 2\n# x y\n3 4.5 z\nw")?;
        assert!(rt;
            text.as_str()
                == "line 3: '4.5' is no count (expected a whole number from -2147483648 to 2147483647)"
        );
        Ok(())
    }
}
