//! Books and records with their complete lists of fits, worked out by hand.
//!
//! A name is the pattern and the record in short: (a b) stands for (1:a1:b). The cases stand in groups, each a `static`
//! that one function borrows: a proof that goes over all of them at once takes too many steps.
use crate::fits::Case;
use crate::fits::Given::{Readings, Text};

// The fits that are most easily lost or told twice.
static LOST: [Case; 9] = [
    Case {
        name: "(!a 't :v !b) on (t t 5)",
        book: "(((2:!a2:'t2::v2:!b)(5:'temp2::v2:!a2:!b)))",
        record: Text("(1:t1:t1:5)"),
        fits: &[
            (
                1,
                &[
                    ("a", 0, None),
                    ("v", 1, Some((4, 2))),
                    ("b", 1, Some((7, 3))),
                ],
                "(4:temp1:t1:5)",
            ),
            (
                1,
                &[
                    ("a", 1, Some((1, 1))),
                    ("v", 1, Some((7, 3))),
                    ("b", 0, None),
                ],
                "(4:temp1:51:t)",
            ),
        ],
    },
    Case {
        name: "(!x !y) on (a b)",
        book: "(((2:!x2:!y)((2:!x)(2:!y))))",
        record: Text("(1:a1:b)"),
        fits: &[
            (1, &[("x", 0, None), ("y", 2, Some((1, 1)))], "(()(1:a1:b))"),
            (
                1,
                &[("x", 1, Some((1, 1))), ("y", 1, Some((4, 2)))],
                "((1:a)(1:b))",
            ),
            (1, &[("x", 2, Some((1, 1))), ("y", 0, None)], "((1:a1:b)())"),
        ],
    },
    Case {
        name: "(!x !x) on (a b a b)",
        book: "(((2:!x2:!x)(2:!x)))",
        record: Text("(1:a1:b1:a1:b)"),
        fits: &[(1, &[("x", 2, Some((1, 1)))], "(1:a1:b)")],
    },
    Case {
        name: "(!x) on ()",
        book: "(((2:!x)(2:!x)))",
        record: Readings(&[]),
        fits: &[(1, &[("x", 0, None)], "()")],
    },
    Case {
        name: "(:x) on ()",
        book: "(((2::x)(2::x)))",
        record: Readings(&[]),
        fits: &[],
    },
    Case {
        name: "(:x :x) on ((a) (a))",
        book: "(((2::x2::x)2::x))",
        record: Text("((1:a)(1:a))"),
        fits: &[(1, &[("x", 1, Some((1, 1)))], "(1:a)")],
    },
    Case {
        name: "((!x) !x) on ((a) a b)",
        book: "((((2:!x)2:!x)(2:!x)))",
        record: Text("((1:a)1:a1:b)"),
        fits: &[],
    },
    Case {
        name: "((!x) !x) on ((a b) a b)",
        book: "((((2:!x)2:!x)(2:!x)))",
        record: Text("((1:a1:b)1:a1:b)"),
        fits: &[(1, &[("x", 2, Some((2, 2)))], "(1:a1:b)")],
    },
    Case {
        name: "(!a :x :x !b) on 1840 1840 1845",
        book: "(((2:!a2::x2::x2:!b)((2:!a)2::x(2:!b))))",
        record: Readings(&[1840, 1840, 1845]),
        fits: &[(
            1,
            &[
                ("a", 0, None),
                ("x", 1, Some((1, 1))),
                ("b", 1, Some((13, 3))),
            ],
            "(()4:1840(4:1845))",
        )],
    },
];

// Three segments side by side.
static SIDE_BY_SIDE: [Case; 3] = [
    Case {
        name: "(!x !y !z) on ()",
        book: "(((2:!x2:!y2:!z)((2:!x)(2:!y)(2:!z))))",
        record: Readings(&[]),
        fits: &[(
            1,
            &[("x", 0, None), ("y", 0, None), ("z", 0, None)],
            "(()()())",
        )],
    },
    Case {
        name: "(!x !y !z) on 5",
        book: "(((2:!x2:!y2:!z)((2:!x)(2:!y)(2:!z))))",
        record: Readings(&[5]),
        fits: &[
            (
                1,
                &[("x", 0, None), ("y", 0, None), ("z", 1, Some((1, 1)))],
                "(()()(1:5))",
            ),
            (
                1,
                &[("x", 0, None), ("y", 1, Some((1, 1))), ("z", 0, None)],
                "(()(1:5)())",
            ),
            (
                1,
                &[("x", 1, Some((1, 1))), ("y", 0, None), ("z", 0, None)],
                "((1:5)()())",
            ),
        ],
    },
    Case {
        name: "(!x !y !z) on 5 7",
        book: "(((2:!x2:!y2:!z)((2:!x)(2:!y)(2:!z))))",
        record: Readings(&[5, 7]),
        fits: &[
            (
                1,
                &[("x", 0, None), ("y", 0, None), ("z", 2, Some((1, 1)))],
                "(()()(1:51:7))",
            ),
            (
                1,
                &[
                    ("x", 0, None),
                    ("y", 1, Some((1, 1))),
                    ("z", 1, Some((4, 2))),
                ],
                "(()(1:5)(1:7))",
            ),
            (
                1,
                &[("x", 0, None), ("y", 2, Some((1, 1))), ("z", 0, None)],
                "(()(1:51:7)())",
            ),
            (
                1,
                &[
                    ("x", 1, Some((1, 1))),
                    ("y", 0, None),
                    ("z", 1, Some((4, 2))),
                ],
                "((1:5)()(1:7))",
            ),
            (
                1,
                &[
                    ("x", 1, Some((1, 1))),
                    ("y", 1, Some((4, 2))),
                    ("z", 0, None),
                ],
                "((1:5)(1:7)())",
            ),
            (
                1,
                &[("x", 2, Some((1, 1))), ("y", 0, None), ("z", 0, None)],
                "((1:51:7)()())",
            ),
        ],
    },
];

// Three segments side by side, on three elements.
static SIDE_BY_SIDE_ON_THREE: [Case; 1] = [Case {
    name: "(!x !y !z) on 5 7 9",
    book: "(((2:!x2:!y2:!z)((2:!x)(2:!y)(2:!z))))",
    record: Readings(&[5, 7, 9]),
    fits: &[
        (
            1,
            &[("x", 0, None), ("y", 0, None), ("z", 3, Some((1, 1)))],
            "(()()(1:51:71:9))",
        ),
        (
            1,
            &[
                ("x", 0, None),
                ("y", 1, Some((1, 1))),
                ("z", 2, Some((4, 2))),
            ],
            "(()(1:5)(1:71:9))",
        ),
        (
            1,
            &[
                ("x", 0, None),
                ("y", 2, Some((1, 1))),
                ("z", 1, Some((7, 3))),
            ],
            "(()(1:51:7)(1:9))",
        ),
        (
            1,
            &[("x", 0, None), ("y", 3, Some((1, 1))), ("z", 0, None)],
            "(()(1:51:71:9)())",
        ),
        (
            1,
            &[
                ("x", 1, Some((1, 1))),
                ("y", 0, None),
                ("z", 2, Some((4, 2))),
            ],
            "((1:5)()(1:71:9))",
        ),
        (
            1,
            &[
                ("x", 1, Some((1, 1))),
                ("y", 1, Some((4, 2))),
                ("z", 1, Some((7, 3))),
            ],
            "((1:5)(1:7)(1:9))",
        ),
        (
            1,
            &[
                ("x", 1, Some((1, 1))),
                ("y", 2, Some((4, 2))),
                ("z", 0, None),
            ],
            "((1:5)(1:71:9)())",
        ),
        (
            1,
            &[
                ("x", 2, Some((1, 1))),
                ("y", 0, None),
                ("z", 1, Some((7, 3))),
            ],
            "((1:51:7)()(1:9))",
        ),
        (
            1,
            &[
                ("x", 2, Some((1, 1))),
                ("y", 1, Some((7, 3))),
                ("z", 0, None),
            ],
            "((1:51:7)(1:9)())",
        ),
        (
            1,
            &[("x", 3, Some((1, 1))), ("y", 0, None), ("z", 0, None)],
            "((1:51:71:9)()())",
        ),
    ],
}];

// Segments that stand again, side by side.
static AGAIN: [Case; 5] = [
    Case {
        name: "(!x !x !y) on 4 4 4 4",
        book: "(((2:!x2:!x2:!y)((2:!x)(2:!y))))",
        record: Readings(&[4, 4, 4, 4]),
        fits: &[
            (
                1,
                &[("x", 0, None), ("y", 4, Some((1, 1)))],
                "(()(1:41:41:41:4))",
            ),
            (
                1,
                &[("x", 1, Some((1, 1))), ("y", 2, Some((7, 3)))],
                "((1:4)(1:41:4))",
            ),
            (1, &[("x", 2, Some((1, 1))), ("y", 0, None)], "((1:41:4)())"),
        ],
    },
    Case {
        name: "(!x !y !x !y) on (a b a b)",
        book: "(((2:!x2:!y2:!x2:!y)((2:!x)(2:!y))))",
        record: Text("(1:a1:b1:a1:b)"),
        fits: &[
            (1, &[("x", 0, None), ("y", 2, Some((1, 1)))], "(()(1:a1:b))"),
            (
                1,
                &[("x", 1, Some((1, 1))), ("y", 1, Some((4, 2)))],
                "((1:a)(1:b))",
            ),
            (1, &[("x", 2, Some((1, 1))), ("y", 0, None)], "((1:a1:b)())"),
        ],
    },
    Case {
        name: "(!x !x !x) on 4 4 4 4 4 4",
        book: "(((2:!x2:!x2:!x)(2:!x)))",
        record: Readings(&[4, 4, 4, 4, 4, 4]),
        fits: &[(1, &[("x", 2, Some((1, 1)))], "(1:41:4)")],
    },
    Case {
        name: "(!x !x !x) on 4 4 4 4 4",
        book: "(((2:!x2:!x2:!x)(2:!x)))",
        record: Readings(&[4, 4, 4, 4, 4]),
        fits: &[],
    },
    Case {
        name: "(!x !x) on ((a) a)",
        book: "(((2:!x2:!x)(2:!x)))",
        record: Text("((1:a)1:a)"),
        fits: &[],
    },
];

// Segments around elements that they could hold too.
static AROUND_ELEMENTS: [Case; 5] = [
    Case {
        name: "(!x 's !x) on (a s a s a s a)",
        book: "(((2:!x2:'s2:!x)(2:!x)))",
        record: Text("(1:a1:s1:a1:s1:a1:s1:a)"),
        fits: &[(1, &[("x", 3, Some((1, 1)))], "(1:a1:s1:a)")],
    },
    Case {
        name: "(!x '5 '7 !y) on 5 5 5 7 5",
        book: "(((2:!x2:'52:'72:!y)((2:!x)(2:!y))))",
        record: Readings(&[5, 5, 5, 7, 5]),
        fits: &[(
            1,
            &[("x", 2, Some((1, 1))), ("y", 1, Some((13, 5)))],
            "((1:51:5)(1:5))",
        )],
    },
    Case {
        name: "(!a '0 !b '0 !c '0 !d) on 0 0 0 0",
        book: "(((2:!a2:'02:!b2:'02:!c2:'02:!d)((2:!a)(2:!b)(2:!c)(2:!d))))",
        record: Readings(&[0, 0, 0, 0]),
        fits: &[
            (
                1,
                &[
                    ("a", 0, None),
                    ("b", 0, None),
                    ("c", 0, None),
                    ("d", 1, Some((10, 4))),
                ],
                "(()()()(1:0))",
            ),
            (
                1,
                &[
                    ("a", 0, None),
                    ("b", 0, None),
                    ("c", 1, Some((7, 3))),
                    ("d", 0, None),
                ],
                "(()()(1:0)())",
            ),
            (
                1,
                &[
                    ("a", 0, None),
                    ("b", 1, Some((4, 2))),
                    ("c", 0, None),
                    ("d", 0, None),
                ],
                "(()(1:0)()())",
            ),
            (
                1,
                &[
                    ("a", 1, Some((1, 1))),
                    ("b", 0, None),
                    ("c", 0, None),
                    ("d", 0, None),
                ],
                "((1:0)()()())",
            ),
        ],
    },
    Case {
        name: "(!a :x !b :x !c :x !d) on 3 1 4 9 5 9 2 6 9 8 7 0",
        book: "(((2:!a2::x2:!b2::x2:!c2::x2:!d)((2:!a)(2:!b)(2:!c)(2:!d)2::x)))",
        record: Readings(&[3, 1, 4, 9, 5, 9, 2, 6, 9, 8, 7, 0]),
        fits: &[(
            1,
            &[
                ("a", 3, Some((1, 1))),
                ("x", 1, Some((10, 4))),
                ("b", 1, Some((13, 5))),
                ("c", 2, Some((19, 7))),
                ("d", 3, Some((28, 10))),
            ],
            "((1:31:11:4)(1:5)(1:21:6)(1:81:71:0)1:9)",
        )],
    },
    // 10,626 ways to lay four segments, and none has the constant behind.
    Case {
        name: "(!a !b !c !d 'z) on 20 readings",
        book: "(((2:!a2:!b2:!c2:!d2:'z)2:'k))",
        record: Readings(&[
            0, 1, 2, 3, 4, 5, 6, 7, 8, 9, 10, 11, 12, 13, 14, 15, 16, 17, 18, 19,
        ]),
        fits: &[],
    },
];

// Segments in lists, the search going on inside one and outside it.
static INSIDE: [Case; 2] = [
    Case {
        name: "(!a (!b (!c) !d)) on (p ((r) () (r)))",
        book: "(((2:!a(2:!b(2:!c)2:!d))((2:!a)(2:!b)(2:!c)(2:!d))))",
        record: Text("(1:p((1:r)()(1:r)))"),
        fits: &[
            (
                1,
                &[
                    ("a", 1, Some((1, 1))),
                    ("b", 0, None),
                    ("c", 1, Some((6, 4))),
                    ("d", 2, Some((10, 5))),
                ],
                "((1:p)()(1:r)(()(1:r)))",
            ),
            (
                1,
                &[
                    ("a", 1, Some((1, 1))),
                    ("b", 1, Some((5, 3))),
                    ("c", 0, None),
                    ("d", 1, Some((12, 6))),
                ],
                "((1:p)((1:r))()((1:r)))",
            ),
            (
                1,
                &[
                    ("a", 1, Some((1, 1))),
                    ("b", 2, Some((5, 3))),
                    ("c", 1, Some((13, 7))),
                    ("d", 0, None),
                ],
                "((1:p)((1:r)())(1:r)())",
            ),
        ],
    },
    Case {
        name: "((!b !c) !a !d) on ((p) r)",
        book: "((((2:!b2:!c)2:!a2:!d)((2:!a)(2:!b)(2:!c)(2:!d))))",
        record: Text("((1:p)1:r)"),
        fits: &[
            (
                1,
                &[
                    ("b", 0, None),
                    ("c", 1, Some((2, 2))),
                    ("a", 0, None),
                    ("d", 1, Some((6, 3))),
                ],
                "(()()(1:p)(1:r))",
            ),
            (
                1,
                &[
                    ("b", 0, None),
                    ("c", 1, Some((2, 2))),
                    ("a", 1, Some((6, 3))),
                    ("d", 0, None),
                ],
                "((1:r)()(1:p)())",
            ),
            (
                1,
                &[
                    ("b", 1, Some((2, 2))),
                    ("c", 0, None),
                    ("a", 0, None),
                    ("d", 1, Some((6, 3))),
                ],
                "(()(1:p)()(1:r))",
            ),
            (
                1,
                &[
                    ("b", 1, Some((2, 2))),
                    ("c", 0, None),
                    ("a", 1, Some((6, 3))),
                    ("d", 0, None),
                ],
                "((1:r)(1:p)()())",
            ),
        ],
    },
];

// Segments that pass over lists, whatever has been tried inside.
static PAST_LISTS: [Case; 6] = [
    Case {
        name: "(!x (!y) !z) on ((a) () (b c))",
        book: "(((2:!x(2:!y)2:!z)((2:!x)(2:!y)(2:!z))))",
        record: Text("((1:a)()(1:b1:c))"),
        fits: &[
            (
                1,
                &[
                    ("x", 0, None),
                    ("y", 1, Some((2, 2))),
                    ("z", 2, Some((6, 3))),
                ],
                "(()(1:a)(()(1:b1:c)))",
            ),
            (
                1,
                &[
                    ("x", 1, Some((1, 1))),
                    ("y", 0, None),
                    ("z", 1, Some((8, 4))),
                ],
                "(((1:a))()((1:b1:c)))",
            ),
            (
                1,
                &[
                    ("x", 2, Some((1, 1))),
                    ("y", 2, Some((9, 5))),
                    ("z", 0, None),
                ],
                "(((1:a)())(1:b1:c)())",
            ),
        ],
    },
    Case {
        name: "(!a (:x) !b) on (p (q) (r s) (t))",
        book: "(((2:!a(2::x)2:!b)(2::x(2:!a)(2:!b))))",
        record: Text("(1:p(1:q)(1:r1:s)(1:t))"),
        fits: &[
            (
                1,
                &[
                    ("a", 1, Some((1, 1))),
                    ("x", 1, Some((5, 3))),
                    ("b", 2, Some((9, 4))),
                ],
                "(1:q(1:p)((1:r1:s)(1:t)))",
            ),
            (
                1,
                &[
                    ("a", 3, Some((1, 1))),
                    ("x", 1, Some((18, 8))),
                    ("b", 0, None),
                ],
                "(1:t(1:p(1:q)(1:r1:s))())",
            ),
        ],
    },
    Case {
        name: "((!x) (!x)) on (() ())",
        book: "((((2:!x)(2:!x))(2:!x)))",
        record: Text("(()())"),
        fits: &[(1, &[("x", 0, None)], "()")],
    },
    Case {
        name: "((!x) (!x)) on (() (a))",
        book: "((((2:!x)(2:!x))(2:!x)))",
        record: Text("(()(1:a))"),
        fits: &[],
    },
    Case {
        name: "(!a ((!b 'x)) !c) on (((p y)) ((q x)) z)",
        book: "(((2:!a((2:!b2:'x))2:!c)((2:!b)(2:!c)(2:!a))))",
        record: Text("(((1:p1:y))((1:q1:x))1:z)"),
        fits: &[(
            1,
            &[
                ("a", 1, Some((1, 1))),
                ("b", 1, Some((13, 7))),
                ("c", 1, Some((21, 9))),
            ],
            "((1:q)(1:z)(((1:p1:y))))",
        )],
    },
    Case {
        name: "((!x !y) !x) on ((a b) a)",
        book: "((((2:!x2:!y)2:!x)((2:!y)(2:!x))))",
        record: Text("((1:a1:b)1:a)"),
        fits: &[(
            1,
            &[("x", 1, Some((2, 2))), ("y", 1, Some((5, 3)))],
            "((1:b)(1:a))",
        )],
    },
];

// Names that stand again at another depth, and one as deep as a book can hold it.
static AT_DEPTHS: [Case; 9] = [
    Case {
        name: "((:x) ((:x))) on ((a) ((a)))",
        book: "((((2::x)((2::x)))2::x))",
        record: Text("((1:a)((1:a)))"),
        fits: &[(1, &[("x", 1, Some((2, 2)))], "1:a")],
    },
    Case {
        name: "((:x) ((:x))) on ((a) ((b)))",
        book: "((((2::x)((2::x)))2::x))",
        record: Text("((1:a)((1:b)))"),
        fits: &[],
    },
    Case {
        name: "((!x) ((!x :y))) on ((a b) ((a b c)))",
        book: "((((2:!x)((2:!x2::y)))(2::y2:!x)))",
        record: Text("((1:a1:b)((1:a1:b1:c)))"),
        fits: &[(
            1,
            &[("x", 2, Some((2, 2))), ("y", 1, Some((17, 8)))],
            "(1:c1:a1:b)",
        )],
    },
    Case {
        name: "(((!x) !x) !x) on (((a) a) a)",
        book: "(((((2:!x)2:!x)2:!x)(2:!x)))",
        record: Text("(((1:a)1:a)1:a)"),
        fits: &[(1, &[("x", 1, Some((3, 3)))], "(1:a)")],
    },
    Case {
        name: "(!a (!b) !a !b) on (p (q) p q)",
        book: "(((2:!a(2:!b)2:!a2:!b)(2:!b2:!a)))",
        record: Text("(1:p(1:q)1:p1:q)"),
        fits: &[(
            1,
            &[("a", 1, Some((1, 1))), ("b", 1, Some((5, 3)))],
            "(1:q1:p)",
        )],
    },
    Case {
        name: "(!a (!b) !a !b) on (() () ())",
        book: "(((2:!a(2:!b)2:!a2:!b)(2:!b2:!a)))",
        record: Text("(()()())"),
        fits: &[(1, &[("a", 1, Some((1, 1))), ("b", 0, None)], "(())")],
    },
    Case {
        name: "((!x) (!y) (!x !y)) on ((a) (b) (a b))",
        book: "((((2:!x)(2:!y)(2:!x2:!y))(2:!y2:!x)))",
        record: Text("((1:a)(1:b)(1:a1:b))"),
        fits: &[(
            1,
            &[("x", 1, Some((2, 2))), ("y", 1, Some((7, 4)))],
            "(1:b1:a)",
        )],
    },
    Case {
        name: "((!x) (!y) (!x !y)) on ((a) () (a))",
        book: "((((2:!x)(2:!y)(2:!x2:!y))(2:!y2:!x)))",
        record: Text("((1:a)()(1:a))"),
        fits: &[(1, &[("x", 1, Some((2, 2))), ("y", 0, None)], "(1:a)")],
    },
    Case {
        name: "29 lists, one in another, and !x innermost",
        book: "(((((((((((((((((((((((((((((((2:!x)))))))))))))))))))))))))))))(2:!x)))",
        record: Text("(((((((((((((((((((((((((((((1:a1:b)))))))))))))))))))))))))))))"),
        fits: &[(1, &[("x", 2, Some((29, 29)))], "(1:a1:b)")],
    },
];

// Variables that stand for lists, and empty lists.
static WHOLE_LISTS: [Case; 11] = [
    Case {
        name: "(:x (:x)) on ((a b) ((a b)))",
        book: "(((2::x(2::x))2::x))",
        record: Text("((1:a1:b)((1:a1:b)))"),
        fits: &[(1, &[("x", 1, Some((1, 1)))], "(1:a1:b)")],
    },
    Case {
        name: "(:x :x) on ((a (b ())) (a (b ())))",
        book: "(((2::x2::x)2::x))",
        record: Text("((1:a(1:b()))(1:a(1:b())))"),
        fits: &[(1, &[("x", 1, Some((1, 1)))], "(1:a(1:b()))")],
    },
    Case {
        name: "(:x :x) on ((a (b ())) (a (b c)))",
        book: "(((2::x2::x)2::x))",
        record: Text("((1:a(1:b()))(1:a(1:b1:c)))"),
        fits: &[],
    },
    Case {
        name: "(:x :x) on ((a b) (a))",
        book: "(((2::x2::x)2::x))",
        record: Text("((1:a1:b)(1:a))"),
        fits: &[],
    },
    Case {
        name: "(:x !y :x) on (() ())",
        book: "(((2::x2:!y2::x)(2::x2:!y)))",
        record: Text("(()())"),
        fits: &[(1, &[("x", 1, Some((1, 1))), ("y", 0, None)], "(())")],
    },
    Case {
        name: "(!x) on (())",
        book: "(((2:!x)(2:!x)))",
        record: Text("(())"),
        fits: &[(1, &[("x", 1, Some((1, 1)))], "(())")],
    },
    Case {
        name: "((!x)) on (())",
        book: "((((2:!x))(2:!x)))",
        record: Text("(())"),
        fits: &[(1, &[("x", 0, None)], "()")],
    },
    Case {
        name: "((!x)) on ()",
        book: "((((2:!x))(2:!x)))",
        record: Readings(&[]),
        fits: &[],
    },
    Case {
        name: "(!x () !y) on (() ())",
        book: "(((2:!x()2:!y)((2:!x)(2:!y))))",
        record: Text("(()())"),
        fits: &[
            (1, &[("x", 0, None), ("y", 1, Some((3, 2)))], "(()(()))"),
            (1, &[("x", 1, Some((1, 1))), ("y", 0, None)], "((())())"),
        ],
    },
    Case {
        name: "() on ()",
        book: "((()(()())))",
        record: Readings(&[]),
        fits: &[(1, &[], "(()())")],
    },
    Case {
        name: "() on 5",
        book: "((()(()())))",
        record: Readings(&[5]),
        fits: &[],
    },
];

// Atoms: empty ones, those that look like lists, that begin alike, that do not print; and long names.
static ATOMS: [Case; 8] = [
    Case {
        name: "(' !x) on two empty atoms",
        book: "(((1:'2:!x)(2:!x1:')))",
        record: Text("(0:0:)"),
        fits: &[(1, &[("x", 1, Some((3, 2)))], "(0:0:)")],
    },
    Case {
        name: "(') on (())",
        book: "(((1:')1:'))",
        record: Text("(())"),
        fits: &[],
    },
    Case {
        name: "(!a :x :x !b) on an atom (), () twice, the atom again",
        book: "(((2:!a2::x2::x2:!b)((2:!a)2::x(2:!b))))",
        record: Text("(2:()()()2:())"),
        fits: &[(
            1,
            &[
                ("a", 1, Some((1, 1))),
                ("x", 1, Some((5, 2))),
                ("b", 1, Some((9, 4))),
            ],
            "((2:())()(2:()))",
        )],
    },
    Case {
        name: "(:x :x) on (ab abc)",
        book: "(((2::x2::x)2::x))",
        record: Text("(2:ab3:abc)"),
        fits: &[],
    },
    Case {
        name: "('ab !x) on (abc ab)",
        book: "(((3:'ab2:!x)(2:!x)))",
        record: Text("(3:abc2:ab)"),
        fits: &[],
    },
    Case {
        name: "octets that do not print, and parentheses in atoms",
        book: "(((2:'\n4::\x00\u{80}2:!\x00)(2:!\x002:':4::\x00\u{80})))",
        record: Text("(1:\n2:\u{80}1:)1:()"),
        fits: &[(
            1,
            &[("\x00\u{80}", 1, Some((4, 2))), ("\x00", 2, Some((8, 3)))],
            "(1:)1:(1::2:\u{80})",
        )],
    },
    Case {
        name: "(:x !a :x) on -5 2147483647 -2147483648 -5",
        book: "(((2::x2:!a2::x)(2:!a2::x)))",
        record: Readings(&[-5, 2147483647, -2147483648, -5]),
        fits: &[(
            1,
            &[("x", 1, Some((1, 1))), ("a", 2, Some((5, 2)))],
            "(10:214748364711:-21474836482:-5)",
        )],
    },
    Case {
        name: "names of 32 octets that begin alike",
        book: "(((33:!abcdefghijklmnopqrstuvwxyz01234533::abcdefghijklmnopqrstuvwxyz012346)\
            (33::abcdefghijklmnopqrstuvwxyz01234633:!abcdefghijklmnopqrstuvwxyz012345)))",
        record: Text("(1:a1:b)"),
        fits: &[(
            1,
            &[
                ("abcdefghijklmnopqrstuvwxyz012345", 1, Some((1, 1))),
                ("abcdefghijklmnopqrstuvwxyz012346", 1, Some((4, 2))),
            ],
            "(1:b1:a)",
        )],
    },
];

// Patterns of one element.
static ONE_ELEMENT: [Case; 4] = [
    Case {
        name: ":x on 3",
        book: "((2::x(2::x2::x)))",
        record: Readings(&[3]),
        fits: &[(1, &[("x", 1, Some((0, 0)))], "((1:3)(1:3))")],
    },
    Case {
        name: "'a on a",
        book: "((2:'a2:'b))",
        record: Text("1:a"),
        fits: &[(1, &[], "1:b")],
    },
    Case {
        name: "'a on (a)",
        book: "((2:'a2:'b))",
        record: Text("(1:a)"),
        fits: &[],
    },
    Case {
        name: "(!x) on a",
        book: "(((2:!x)(2:!x)))",
        record: Text("1:a"),
        fits: &[],
    },
];

// What is written, and books of several rules and of none.
static WRITTEN: [Case; 5] = [
    Case {
        name: "(!x) on (a b), written several times and deeper",
        book: "(((2:!x)(2:!x(2:!x2:!x)2:'k())))",
        record: Text("(1:a1:b)"),
        fits: &[(1, &[("x", 2, Some((1, 1)))], "(1:a1:b(1:a1:b1:a1:b)1:k())")],
    },
    Case {
        name: "(!x !y) on 7, written alike for both fits",
        book: "(((2:!x2:!y)2:'k))",
        record: Readings(&[7]),
        fits: &[
            (1, &[("x", 0, None), ("y", 1, Some((1, 1)))], "1:k"),
            (1, &[("x", 1, Some((1, 1))), ("y", 0, None)], "1:k"),
        ],
    },
    Case {
        name: "('z), (!x !y), (), (:v), :w and 'q on 5",
        book: "(((2:'z)2:'k)((2:!x2:!y)((2:!x)(2:!y)))(()())((2::v)2::v)(2::w(2::w))(2:'q2:'q))",
        record: Readings(&[5]),
        fits: &[
            (2, &[("x", 0, None), ("y", 1, Some((1, 1)))], "(()(1:5))"),
            (2, &[("x", 1, Some((1, 1))), ("y", 0, None)], "((1:5)())"),
            (4, &[("v", 1, Some((1, 1)))], "1:5"),
            (5, &[("w", 1, Some((0, 0)))], "((1:5))"),
        ],
    },
    Case {
        name: "one rule twice",
        book: "((2::x2::x)(2::x2::x))",
        record: Readings(&[]),
        fits: &[
            (1, &[("x", 1, Some((0, 0)))], "()"),
            (2, &[("x", 1, Some((0, 0)))], "()"),
        ],
    },
    Case {
        name: "no rule",
        book: "()",
        record: Readings(&[]),
        fits: &[],
    },
];

fn lost() -> &'static [Case] {
    &LOST
}

fn side_by_side() -> &'static [Case] {
    &SIDE_BY_SIDE
}

fn side_by_side_on_three() -> &'static [Case] {
    &SIDE_BY_SIDE_ON_THREE
}

fn again() -> &'static [Case] {
    &AGAIN
}

fn around_elements() -> &'static [Case] {
    &AROUND_ELEMENTS
}

fn inside() -> &'static [Case] {
    &INSIDE
}

fn past_lists() -> &'static [Case] {
    &PAST_LISTS
}

fn at_depths() -> &'static [Case] {
    &AT_DEPTHS
}

fn whole_lists() -> &'static [Case] {
    &WHOLE_LISTS
}

fn atoms() -> &'static [Case] {
    &ATOMS
}

fn one_element() -> &'static [Case] {
    &ONE_ELEMENT
}

fn written() -> &'static [Case] {
    &WRITTEN
}

/// The groups of cases.
pub(crate) fn groups() -> [&'static [Case]; 12] {
    [
        lost(),
        side_by_side(),
        side_by_side_on_three(),
        again(),
        around_elements(),
        inside(),
        past_lists(),
        at_depths(),
        whole_lists(),
        atoms(),
        one_element(),
        written(),
    ]
}
