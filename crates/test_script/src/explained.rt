//! Scripts that show reasons, worked by hand: a wrong definition, with its code, fails.

use crate::runs::{Row, expect_rows};
use lol_script::Status;

/// Where the line may stand, and what each field is.
const FIELDS: [Row; 8] = [
    (
        "tries\nexplain\nselect\t0\tdiv p\nselect\t1\tdiv > p\nstart\thtml\tdiv\nstart\thtml\tsection\nstart\thtml\tp\nend\tdiv\n",
        "start\t-\ttries 1 0\nstart\t-\ttries 3 0\nstart\t0\ttries 2 0\nwhy\t0\t3\t0\t0,2\nend\t0,1,2\n",
        Status::Good,
    ),
    // After the selectors, and twice.
    (
        "\nselect\t7\tdiv p\nexplain\n\nselect\t3\tp\nexplain\nstart\thtml\tdiv\nend\tx\nstart\thtml\tp",
        "start\t-\nend\t-\nstart\t3,7\nwhy\t7\t2\t0\t0,2\nwhy\t3\t5\t0\t2\n",
        Status::Good,
    ),
    // Lists, and one id under several texts: the id stands once, each item that matches has its line.
    (
        "explain\nselect\t5\ta, p, div > p\nselect\t5\t*\nselect\t2\tp, p\nstart\thtml\tdiv\nstart\thtml\tp\n",
        "start\t5\nwhy\t5\t3\t0\t0\nstart\t2,5\nwhy\t5\t2\t1\t1\nwhy\t5\t2\t2\t0,1\nwhy\t5\t3\t0\t1\nwhy\t2\t4\t0\t1\nwhy\t2\t4\t1\t1\n",
        Status::Good,
    ),
    // Great ids.
    (
        "explain\nselect\t4294967295\tp\nselect\t0\tp\nselect\t4294967295\tp\nselect\t65536\tp\nstart\thtml\tp\n",
        "start\t0,65536,4294967295\nwhy\t4294967295\t2\t0\t0\nwhy\t0\t3\t0\t0\nwhy\t4294967295\t4\t0\t0\nwhy\t65536\t5\t0\t0\n",
        Status::Good,
    ),
    // No selectors, and no tags.
    (
        "explain\nstart\thtml\tp\nend\tp\n",
        "start\t-\nend\t0\n",
        Status::Good,
    ),
    ("explain\nselect\t0\tp\n", "", Status::Good),
    ("explain\r\nend\tp\n", "bad line 1: form\n", Status::BadLine),
    ("end\tp\nexplain\n", "bad line 2: form\n", Status::BadLine),
];

/// Which elements compounds are passed by.
const ELEMENTS: [Row; 6] = [
    // The nearest ones: the last div, and the last section outside it.
    (
        "explain\nselect\t0\tsection div p\nstart\thtml\tsection\nstart\thtml\tsection\nstart\thtml\tdiv\nstart\thtml\tsection\nstart\thtml\tdiv\nstart\thtml\tsection\nstart\thtml\tp\n",
        "start\t-\nstart\t-\nstart\t-\nstart\t-\nstart\t-\nstart\t-\nstart\t0\nwhy\t0\t2\t0\t3,4,6\n",
        Status::Good,
    ),
    // The nearest div isn't right under main; of two parents of one name each is in its place.
    (
        "explain\nselect\t0\tmain > div p\nselect\t1\tdiv > div > p\nstart\thtml\tmain\nstart\thtml\tdiv\nstart\thtml\tdiv\nstart\thtml\tp\n",
        "start\t-\nstart\t-\nstart\t-\nstart\t0,1\nwhy\t0\t2\t0\t0,1,3\nwhy\t1\t3\t0\t1,2,3\n",
        Status::Good,
    ),
    // Inside :not and :is.
    (
        "explain\nselect\t0\tdiv:not(.a) p\nselect\t1\t:is(main, .a) p\nstart\thtml\tmain\nstart\thtml\tdiv\nstart\thtml\tdiv\tclass=a\nstart\thtml\tp\n",
        "start\t-\nstart\t-\tasked\nstart\t-\tasked\nstart\t0,1\tasked\nwhy\t0\t2\t0\t1,3\nwhy\t1\t3\t0\t2,3\n",
        Status::Good,
    ),
    // Void and foreign elements.
    (
        "explain\nselect\t4\tdiv > img\nselect\t5\tsvg g circle\nstart\thtml\tdiv\nstart\thtml\tIMG\nstart\tsvg\tsvg\nstart\tsvg/\tg\nstart\tsvg\tg\nstart\tsvg/\tcircle\nend\tdiv\n",
        "start\t-\nstart\t4/\nwhy\t4\t2\t0\t0,1\nstart\t-\tasked\nstart\t-\tasked\nstart\t-\tasked\nstart\t5/\tasked\nwhy\t5\t3\t0\t2,4,5\nend\t0,2,4\n",
        Status::Good,
    ),
    // A dropped tag has a number, and no reasons.
    (
        "explain\nselect\t0\tp .a\nselect\t1\tp\nstart\thtml\tp\ndrop\tsvg\tp\tclass=a\nstart\thtml\tp\tclass=a\n",
        "start\t1\nwhy\t1\t3\t0\t0\ndropped\nstart\t0,1\tasked\nwhy\t0\t2\t0\t0,2\nwhy\t1\t3\t0\t2\n",
        Status::Good,
    ),
    // A refused tag has none.
    (
        "limit\t512\nselect\t0\t*\nexplain\nstart\thtml\ta\nstart\thtml\ta\nstart\thtml\ta\nstart\thtml\ta\nstart\thtml\ta\nstart\thtml\ta\nstart\thtml\ta\nstart\thtml\ta\nstart\thtml\tbr\nstart\thtml\ta\nend\ta\n",
        "start\t0\nwhy\t0\t2\t0\t0\nstart\t0\nwhy\t0\t2\t0\t1\nstart\t0\nwhy\t0\t2\t0\t2\nstart\t0\nwhy\t0\t2\t0\t3\nstart\t0\nwhy\t0\t2\t0\t4\nstart\t0\nwhy\t0\t2\t0\t5\nstart\t0\nwhy\t0\t2\t0\t6\nstart\t0\nwhy\t0\t2\t0\t7\nstart\t0/\nwhy\t0\t2\t0\t8\nrefused limit\n",
        Status::Refused,
    ),
];

#[test]
fn shows_fields(rt: HostRuntime) {
    expect_rows(&rt, rt.alloc(), &FIELDS);
}

#[test]
fn shows_elements(rt: HostRuntime) {
    expect_rows(&rt, rt.alloc(), &ELEMENTS);
}
