//! The numbers of faces, and which vertices lie on which facets.

use crate::runs::{Case, are_answered, asked};
use std::test::Fail;

/// The 72 roots of E6, as integer vectors of length 6: their hull has 72, 720, 2,160, 2,160, 702 and 54 faces of dimension 0 to 5.
const ROOTS: &str =
    "72 6\n-1 -2 -3 -2 -1 -2\n-1 -2 -3 -2 -1 -1\n-1 -2 -2 -2 -1 -1\n-1 -2 -2 -1 -1 -1\n-1 -2 -2 -1 0 -1\n-1 -1 -2 -2 -1 -1\n-1 -1 -2 -1 -1 -1\n\
-1 -1 -2 -1 0 -1\n-1 -1 -1 -1 -1 -1\n-1 -1 -1 -1 -1 0\n-1 -1 -1 -1 0 -1\n-1 -1 -1 -1 0 0\n-1 -1 -1 0 0 -1\n-1 -1 -1 0 0 0\n-1 -1 0 0 0 0\n\
-1 0 0 0 0 0\n0 -1 -2 -2 -1 -1\n0 -1 -2 -1 -1 -1\n0 -1 -2 -1 0 -1\n0 -1 -1 -1 -1 -1\n0 -1 -1 -1 -1 0\n0 -1 -1 -1 0 -1\n0 -1 -1 -1 0 0\n\
0 -1 -1 0 0 -1\n0 -1 -1 0 0 0\n0 -1 0 0 0 0\n0 0 -1 -1 -1 -1\n0 0 -1 -1 -1 0\n0 0 -1 -1 0 -1\n0 0 -1 -1 0 0\n0 0 -1 0 0 -1\n0 0 -1 0 0 0\n\
0 0 0 -1 -1 0\n0 0 0 -1 0 0\n0 0 0 0 -1 0\n0 0 0 0 0 -1\n0 0 0 0 0 1\n0 0 0 0 1 0\n0 0 0 1 0 0\n0 0 0 1 1 0\n0 0 1 0 0 0\n0 0 1 0 0 1\n0 0 1 1 0 0\n\
0 0 1 1 0 1\n0 0 1 1 1 0\n0 0 1 1 1 1\n0 1 0 0 0 0\n0 1 1 0 0 0\n0 1 1 0 0 1\n0 1 1 1 0 0\n0 1 1 1 0 1\n0 1 1 1 1 0\n0 1 1 1 1 1\n0 1 2 1 0 1\n\
0 1 2 1 1 1\n0 1 2 2 1 1\n1 0 0 0 0 0\n1 1 0 0 0 0\n1 1 1 0 0 0\n1 1 1 0 0 1\n1 1 1 1 0 0\n1 1 1 1 0 1\n1 1 1 1 1 0\n1 1 1 1 1 1\n1 1 2 1 0 1\n\
1 1 2 1 1 1\n1 1 2 2 1 1\n1 2 2 1 0 1\n1 2 2 1 1 1\n1 2 2 2 1 1\n1 2 3 2 1 1\n1 2 3 2 1 2\n";

#[test]
fn faces_are_counted_in_each_dimension(rt: HostRuntime) -> Result<(), Fail> {
    let cases = [
        asked(
            &["poly", "-i"],
            "1 3\n5 -2 1\n",
            "Faces: 2\nIncidence 2 2\n01\n10\n",
        ),
        asked(
            &["poly", "-i"],
            "3 1 1 1\n",
            "Faces: 3 3\nIncidence 3 3\n011\n101\n110\n",
        ),
        asked(
            &["poly", "-i"],
            "3 6\n1 0 0 -1 0 0\n0 1 0 0 -1 0\n0 0 1 0 0 -1\n",
            "Faces: 6 12 8\nIncidence 8 6\n000111\n001011\n010101\n011001\n100110\n101010\n110100\n111000\n",
        ),
        asked(
            &["poly", "-i"],
            "5 4\n-1 -1 -1 -1\n1 0 0 0\n0 1 0 0\n0 0 1 0\n0 0 0 1\n",
            "Faces: 5 10 10 5\nIncidence 5 5\n01111\n10111\n11011\n11101\n11110\n",
        ),
        asked(
            &["poly", "-i"],
            "6 5\n-1 -1 -1 -1 -1\n1 0 0 0 0\n0 1 0 0 0\n0 0 1 0 0\n0 0 0 1 0\n0 0 0 0 1\n",
            "Faces: 6 15 20 15 6\nIncidence 6 6\n011111\n101111\n110111\n111011\n111101\n111110\n",
        ),
        asked(
            &["poly", "-i"],
            "7 6\n-1 -1 -1 -1 -1 -1\n1 0 0 0 0 0\n0 1 0 0 0 0\n0 0 1 0 0 0\n0 0 0 1 0 0\n0 0 0 0 1 0\n0 0 0 0 0 1\n",
            "Faces: 7 21 35 35 21 7\nIncidence 7 7\n0111111\n1011111\n1101111\n1110111\n1111011\n1111101\n1111110\n",
        ),
    ];
    assert!(rt; are_answered(&rt, &cases)?);
    Ok(())
}

#[test]
fn incidences_stand_behind_the_pairing(rt: HostRuntime) -> Result<(), Fail> {
    let all = "Pairing 3 3\n12 0 0\n0 3 0\n0 0 4\nFaces: 3 3\nIncidence 3 3\n011\n101\n110\n";
    let two = "Faces: 3 3\nIncidence 3 3\n011\n101\n110\nFaces: 2\nIncidence 2 2\n01\n10\n";
    let cases = [
        asked(&["poly", "-im"], "3 2\n-1 -1\n3 -1\n-1 2\n", all),
        asked(&["poly", "-i"], "3 1 1 1\n1 2\n-1 1\n", two),
        asked(
            &["poly", "-gni"],
            "3 1 1 1\n",
            "3 1 1 1 M:10 3 F:3\nFaces: 3 3\nIncidence 3 3\n011\n101\n110\n",
        ),
    ];
    assert!(rt; are_answered(&rt, &cases)?);
    Ok(())
}

#[test]
fn many_faces_are_refused_where_they_are_asked(rt: HostRuntime) -> Result<(), Fail> {
    let cases = [
        Case {
            note: "palp: item 1: limit Faces: 4097\n",
            status: 4,
            ..asked(&["poly", "-i"], ROOTS, "")
        },
        asked(&["poly", "-gn"], ROOTS, "M:73 72 F:54\n"),
        Case {
            note: "palp: item 1: limit Points: 16385\n",
            status: 4,
            ..asked(&["poly", "-i"], "1 2\n-8192 8192\n", "")
        },
    ];
    assert!(rt; are_answered(&rt, &cases)?);
    Ok(())
}
