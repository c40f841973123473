// From the words of a command line to its job.
ghost use Rattle.std.specs.Prelude.{◌≡◌, ◌<◌, ◌^◌, length, map, string_bytes};
ghost use Rattle.palp_words.specs.Words.{words_of};

use crate::cws::read_cws;
use crate::fault::{WordFault, WordKind};
use crate::job::Job;
use crate::nef::read_nef;
use crate::poly::read_poly;
use crate::sweep::read_sweep;

/// The job that the words of a command line, without the program's name, ask for. Otherwise the
/// first wrong word from the left: where one word has several faults, `Flag` and `Number` come
/// before `Range`, and `Range` before `Conflict`. There are fewer than 2^31 words. It takes no
/// memory.
pub fn read_words(words: &[String]) -> Result<Job, WordFault>
    requires { length words.now < 2 ^ 31 }
    ensures { result ≡ words_of (map string_bytes words.now) }
{
    let Some((command, further)) = words.split_first() else {
        return Err(WordFault {
            index: 1,
            kind: WordKind::Missing,
        });
    };
    match command.as_bytes() {
        b"poly" => Ok(Job::Poly(read_poly(further)?)),
        b"nef" => Ok(Job::Nef(read_nef(further)?)),
        b"cws" => Ok(Job::Cws(read_cws(further)?)),
        b"sweep" => Ok(Job::Sweep(read_sweep(further)?)),
        _ => Err(WordFault {
            index: 1,
            kind: WordKind::Command,
        }),
    }
}

#[cfg(test)]
mod tests {
    use super::*;
    use crate::job::{CwsWords, NefWords, PolyFlags, SweepWords};
    use std::alloc::Global;
    use std::process::Abort;
    use std::test::Fail;

    fn read(rt: &impl Abort, alloc: Global, line: &str) -> Result<Result<Job, WordFault>, Fail> {
        let mut words = Vec::new(alloc);
        for word in line.split_whitespace() {
            words.push(String::from_str(alloc, word)?)?;
        }
        assert!(rt; words.len() < 100);
        Ok(read_words(&words))
    }

    #[test]
    fn finds_the_first_wrong_word(rt: HostRuntime) -> Result<(), Fail> {
        let cases = [
            ("", WordKind::Missing, 1),
            ("class", WordKind::Command, 1),
            ("poly -x", WordKind::Flag, 2),
            ("nef -c4", WordKind::Range, 2),
            ("nef -cx", WordKind::Number, 2),
            ("nef -pH", WordKind::Conflict, 2),
            ("cws -w3 5", WordKind::Missing, 4),
            ("sweep 2 3 6 7", WordKind::Extra, 5),
            ("cws -w5 300 400", WordKind::Range, 4),
            ("poly -na", WordKind::Conflict, 2),
            ("poly -n -d", WordKind::Conflict, 3),
            ("poly -an", WordKind::Conflict, 2),
            ("poly -nD", WordKind::Conflict, 2),
            ("poly -D -r -n", WordKind::Conflict, 4),
            ("sweep 2 6 3", WordKind::Range, 4),
            ("cws -w2 6 3", WordKind::Range, 4),
        ];
        for (line, kind, index) in cases {
            assert_eq!(rt;
                read(&rt, rt.alloc(), line)?,
                Err(WordFault { index, kind })
            );
        }
        Ok(())
    }

    #[test]
    fn refuses_empty_words_and_bytes_above_127(rt: HostRuntime) -> Result<(), Fail> {
        let cases = [
            ("poly", "", WordKind::Flag, 2),
            ("nef", "", WordKind::Flag, 2),
            ("cws", "", WordKind::Flag, 2),
            ("sweep", "", WordKind::Number, 2),
            ("", "poly", WordKind::Command, 1),
            ("poly", "-\u{e9}", WordKind::Flag, 2),
            ("poly", "-n\u{e9}", WordKind::Flag, 2),
            ("nef", "-c\u{b2}", WordKind::Number, 2),
            ("nef", "-p\u{e9}", WordKind::Flag, 2),
            ("cws", "-w\u{663}", WordKind::Number, 2),
            ("cws", "-r\u{e9}", WordKind::Flag, 2),
            ("sweep", "\u{ff12}", WordKind::Number, 2),
            ("poly\u{e9}", "-n", WordKind::Command, 1),
        ];
        for (command, word, kind, index) in cases {
            let alloc = rt.alloc();
            let first = String::from_str(alloc, command)?;
            let second = String::from_str(alloc, word)?;
            let words = vec![in alloc; first, second]?;
            assert_eq!(rt; words.len(), 2);
            assert_eq!(rt; read_words(&words), Err(WordFault { index, kind }));
        }
        Ok(())
    }

    #[test]
    fn names_the_first_of_several_faults(rt: HostRuntime) -> Result<(), Fail> {
        let cases = [
            ("poly - -n", WordKind::Flag, 2),
            ("poly -n -r -Dx", WordKind::Flag, 4),
            ("nef -c1 -c7", WordKind::Range, 3),
            ("nef -c1 -c2", WordKind::Conflict, 3),
            ("nef -c1 -cp -H", WordKind::Number, 3),
            ("nef -p -c0 -H", WordKind::Range, 3),
            ("cws -r", WordKind::Missing, 3),
            ("cws -x", WordKind::Flag, 2),
            ("cws -w", WordKind::Number, 2),
            ("cws -w6 1 2", WordKind::Range, 2),
            ("cws -w2 -r 1 2", WordKind::Number, 3),
            ("cws -w2 0 2", WordKind::Range, 3),
            ("cws -w2 3 4096", WordKind::Range, 4),
            ("cws -r -w2 3 6 -r 7", WordKind::Extra, 7),
            ("sweep 5 3 251", WordKind::Range, 4),
            ("sweep -r 3 251", WordKind::Number, 2),
        ];
        for (line, kind, index) in cases {
            assert_eq!(rt;
                read(&rt, rt.alloc(), line)?,
                Err(WordFault { index, kind })
            );
        }
        Ok(())
    }

    /// No letter of `poly` is on.
    const NO_FLAGS: PolyFlags = PolyFlags {
        general: false,
        points: false,
        vertices: false,
        equations: false,
        matrix: false,
        dual_points: false,
        incidence: false,
        reflexive_only: false,
        dual_input: false,
        plain: false,
    };

    fn good_letters() -> [(&'static str, PolyFlags); 5] {
        let general = PolyFlags {
            general: true,
            ..NO_FLAGS
        };
        let plain = PolyFlags {
            plain: true,
            reflexive_only: true,
            ..general
        };
        let dual = PolyFlags {
            incidence: true,
            dual_input: true,
            ..NO_FLAGS
        };
        let all = PolyFlags {
            points: true,
            vertices: true,
            equations: true,
            matrix: true,
            dual_points: true,
            ..general
        };
        [
            ("poly", general),
            ("poly -n -rr", plain),
            ("poly -D -i", dual),
            ("poly -a", all),
            ("poly -gpv -emd", all),
        ]
    }

    #[test]
    fn reads_letters(rt: HostRuntime) -> Result<(), Fail> {
        for (line, flags) in good_letters() {
            assert_eq!(rt;
                read(&rt, rt.alloc(), line)?,
                Ok(Job::Poly(flags)),
                "{line}"
            );
        }
        Ok(())
    }

    #[test]
    fn reads_codimensions(rt: HostRuntime) -> Result<(), Fail> {
        let cases = [
            ("nef", 2, false, false),
            ("nef -c003 -pp", 3, true, false),
            ("nef -H -c1", 1, false, true),
        ];
        for (line, codim, list_only, full) in cases {
            let words = NefWords {
                codim,
                list_only,
                full,
            };
            assert_eq!(rt; read(&rt, rt.alloc(), line)?, Ok(Job::Nef(words)), "{line}");
        }
        Ok(())
    }

    #[test]
    fn reads_degrees(rt: HostRuntime) -> Result<(), Fail> {
        let cases = [
            ("cws -w3 4 66", 3, 4, 66, false),
            ("cws -r -w5 1 250", 5, 1, 250, true),
            ("cws -w1 7 4095 -r -r", 1, 7, 4_095, true),
        ];
        for (line, dim, low, high, reflexive_only) in cases {
            let words = CwsWords {
                dim,
                low,
                high,
                reflexive_only,
            };
            assert_eq!(rt; read(&rt, rt.alloc(), line)?, Ok(Job::Cws(words)), "{line}");
        }
        let words = SweepWords {
            dim: 2,
            low: 3,
            high: 6,
        };
        assert_eq!(rt;
            read(&rt, rt.alloc(), "sweep 2 3 6")?,
            Ok(Job::Sweep(words))
        );
        Ok(())
    }

    /// A word so many times behind others.
    fn repeat(alloc: Global, mut words: Vec<String>, word: &str) -> Result<Vec<String>, Fail> {
        for _ in 0..131_072 {
            words.push(String::from_str(alloc, word)?)?;
        }
        Ok(words)
    }

    #[test]
    fn reads_many_options(rt: HostRuntime) -> Result<(), Fail> {
        let alloc = rt.alloc();
        let command = vec![in alloc; String::from_str(alloc, "cws")?]?;
        let words = repeat(alloc, command, "-r")?;
        assert!(rt; words.len() < 1_000_000);
        let fault = WordFault {
            index: 131_074,
            kind: WordKind::Missing,
        };
        assert_eq!(rt; read_words(&words), Err(fault));
        Ok(())
    }

    #[test]
    fn reads_many_letters(rt: HostRuntime) -> Result<(), Fail> {
        let alloc = rt.alloc();
        let command = String::from_str(alloc, "poly")?;
        let plain = String::from_str(alloc, "-n")?;
        let mut words = repeat(alloc, vec![in alloc; command, plain]?, "-ng")?;
        assert!(rt; words.len() < 1_000_000);
        let flags = PolyFlags {
            general: true,
            plain: true,
            ..NO_FLAGS
        };
        assert_eq!(rt; read_words(&words), Ok(Job::Poly(flags)));
        words.push(String::from_str(alloc, "-d")?)?;
        assert!(rt; words.len() < 1_000_000);
        let fault = WordFault {
            index: 131_075,
            kind: WordKind::Conflict,
        };
        assert_eq!(rt; read_words(&words), Err(fault));
        Ok(())
    }
}
