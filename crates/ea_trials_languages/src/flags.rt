//! Command lines of ten thousand words, and words of a megabyte. Shorter ones are cases.
use ea_flags::FlagFault::{BadValue, NoValue, Unknown, Unsupported};
use ea_flags::{FlagFault, read_flags};
use std::process::Abort;
use std::test::Fail;

// The utilization below which a carrier of eheap_alloc is abandoned.
fn limit(rt: &impl Abort, words: &[String]) -> Result<u32, FlagFault> {
    assert!(rt; words.len() < 1 << 32);
    let config = read_flags(words)?;
    Ok(config.h.acul)
}

#[test]
fn ten_thousand_words_are_read_to_the_last(rt: HostRuntime) -> Result<(), Fail> {
    let mut words = Vec::new(rt.alloc());
    for _ in 0..4999 {
        words.push(String::from_str(rt.alloc(), "+MHacul")?)?;
        words.push(String::from_str(rt.alloc(), "40")?)?;
    }
    words.push(String::from_str(rt.alloc(), "+MHacul")?)?;
    words.push(String::from_str(rt.alloc(), "30")?)?;
    assert!(rt; limit(&rt, &words) == Ok(30));

    words.push(String::from_str(rt.alloc(), "+MHacul")?)?;
    assert!(rt; limit(&rt, &words) == Err(NoValue { word: 10_001 }));
    words.push(String::from_str(rt.alloc(), "101")?)?;
    assert!(rt; limit(&rt, &words) == Err(BadValue { word: 10_002 }));
    Ok(())
}

#[test]
fn a_word_of_a_megabyte_is_refused_as_any_other(rt: HostRuntime) -> Result<(), Fail> {
    let cases = [
        ("", "+MHas", Unknown { word: 1 }),
        ("", "+MMscs ", Unsupported { word: 1 }),
        ("+MHas", "aoffcbf ", BadValue { word: 2 }),
        ("+MHacul", "00000000", BadValue { word: 2 }),
        ("+MHcp", "00000000", Unsupported { word: 1 }),
    ];
    for (flag, part, fault) in cases {
        let mut words = Vec::new(rt.alloc());
        if !flag.is_empty() {
            words.push(String::from_str(rt.alloc(), flag)?)?;
        }
        words.push(part.repeat(rt.alloc(), 1 << 18)?)?;
        assert!(rt; limit(&rt, &words) == Err(fault));
    }
    Ok(())
}
