//! Scripts that were worked by hand from docs/SCRIPT.md: a wrong definition, with its code, fails.

/// 36 scripts, as `expect_texts` takes them.
pub(super) const ANSWERED: &str = "\
    tries\nselect\t0\tdiv p\nselect\t1\tdiv > p\nselect\t2\t.lead p, p.lead\nselect\t3\t:not(p, .lead) > p:first-child\nstart\thtml\tdiv\nstart\thtml\tsection\tclass=wide lead\nstart\thtml\tp\nend\tp\nstart\thtml\tp\tclass=lead\nend\tdiv\nstart\thtml\tp\tclass=lead\n\x1f\
    start\t-\tasked\ttries 4 2\nstart\t-\tasked\ttries 7 2\nstart\t0,2\tasked\ttries 6 2\nend\t2\nstart\t0,2\tasked\ttries 6 2\nend\t0,1,4\nstart\t2\tasked\ttries 4 2\n\x1e\
    \x1f\
    \x1e\
    select\t07\tp\nstart\thtml\tp\n\x1f\
    start\t7\n\x1e\
    select\t0\t:not(div)\nselect\t1\t|p\nstart\thtml\tdiv\nstart\thtml\tp\n\x1f\
    start\t-\nstart\t0\n\x1e\
    select\t7\t:not(div):not(p) > \\42 r/* none */\nstart\thtml\tmain\nstart\thtml\tbr\nstart\thtml\tdiv\nstart\thtml\tbr\n\x1f\
    start\t-\nstart\t7/\nstart\t-\nstart\t-\n\x1e\
    select\t4\t* > br, P\nselect\t2\tp\nstart\thtml\tp\nstart\thtml\tBR\nstart\thtml\tp\nend\tP\nend\tP\n\x1f\
    start\t2,4\nstart\t4/\nstart\t2,4\nend\t2\nend\t0\n\x1e\
    end\ttable\x1f\
    end\t-\n\x1e\
    select\t0\t:is(h1, h2) > a\nstart\thtml\th1\nstart\thtml\ta\nend\th1\nstart\thtml\tp\nstart\thtml\ta\n\x1f\
    start\t-\nstart\t0\nend\t0,1\nstart\t-\nstart\t-\n\x1e\
    select\t0\t:not(:is(a, b))\nstart\thtml\ta\nstart\thtml\tc\n\x1f\
    start\t-\nstart\t0\n\x1e\
    select\t0\t:not(a, b)\nstart\thtml\ta\nstart\thtml\tb\nstart\thtml\tc\n\x1f\
    start\t-\nstart\t-\nstart\t0\n\x1e\
    tries\nselect\t0\tdiv p\nselect\t1\tdiv > p\nstart\thtml\tdiv\nstart\thtml\tsection\nstart\thtml\tp\nend\tdiv\n\x1f\
    start\t-\ttries 1 0\nstart\t-\ttries 3 0\nstart\t0\ttries 2 0\nend\t0,1,2\n\x1e\
    tries\nselect\t0\t.a p\nselect\t1\tp\nstart\thtml\tdiv\tclass=a\nstart\thtml\tp\n\x1f\
    start\t-\tasked\ttries 2 1\nstart\t0,1\tasked\ttries 3 1\n\x1e\
    tries\nselect\t0\tdiv div\nstart\thtml\tdiv\nstart\thtml\tdiv\nstart\thtml\tdiv\nend\tdiv\nstart\thtml\tdiv\n\x1f\
    start\t-\ttries 1 0\nstart\t0\ttries 2 0\nstart\t0\ttries 2 0\nend\t2\nstart\t0\ttries 2 0\n\x1e\
    tries\nselect\t0\tdiv > .a\nselect\t1\tdiv .b\nselect\t2\tdiv > p\nstart\thtml\tdiv\nstart\thtml\tp\tclass=b\n\x1f\
    start\t-\ttries 1 0\nstart\t1,2\tasked\ttries 4 2\n\x1e\
    tries\nselect\t0\tdiv .b\nstart\thtml\tdiv\nstart\thtml\tsection\nstart\thtml\tp\tclass=b\n\x1f\
    start\t-\ttries 1 0\nstart\t-\tasked\ttries 2 1\nstart\t0\tasked\ttries 2 1\n\x1e\
    tries\nselect\t0\t:not(div.foo)\nstart\thtml\tdiv\nstart\thtml\tp\n\x1f\
    start\t0\tasked\ttries 1 1\nstart\t0\ttries 1 0\n\x1e\
    tries\nselect\t0\t:not(:not(a, b))\nstart\thtml\ta\nstart\thtml\tb\nstart\thtml\tc\n\x1f\
    start\t0\ttries 1 0\nstart\t0\ttries 1 0\nstart\t-\ttries 1 0\n\x1e\
    tries\nselect\t0\t:not(.a, p)\nstart\thtml\tp\nstart\thtml\tdiv\tclass=b\n\x1f\
    start\t-\ttries 1 0\nstart\t0\tasked\ttries 1 1\n\x1e\
    tries\nselect\t0\tdiv:not([a*=\"\"])\nstart\thtml\tdiv\nstart\thtml\tp\n\x1f\
    start\t0\tasked\ttries 1 1\nstart\t-\ttries 1 0\n\x1e\
    tries\nselect\t0\t:not(*)\nselect\t1\t:not(|a)\nstart\thtml\ta\n\x1f\
    start\t1\ttries 2 0\n\x1e\
    tries\nselect\t0\t:not(*)\nselect\t1\t:not(|a)\nstart\thtml\tb\n\x1f\
    start\t1\ttries 2 0\n\x1e\
    tries\nselect\t0\t:is(a.x, p)\nstart\thtml\tp\nstart\thtml\ta\tclass=x\nstart\thtml\tdiv\n\x1f\
    start\t0\ttries 1 0\nstart\t0\tasked\ttries 1 1\nstart\t-\ttries 1 0\n\x1e\
    select\t0\tbr:first-child\nselect\t1\tp:nth-child(2)\nstart\thtml\tbr\nstart\thtml\tp\n\x1f\
    start\t0/\nstart\t1\n\x1e\
    select\t0\tspan:nth-of-type(2)\nstart\thtml\tdiv\nstart\thtml\tspan\nend\tspan\nstart\thtml\tSPAN\n\x1f\
    start\t-\nstart\t-\nend\t1\nstart\t0\n\x1e\
    select\t0\t[type=\"TEXT\"]\nstart\thtml\tinput\ttype=text\nstart\tsvg\tinput\ttype=text\n\x1f\
    start\t0/\tasked\nstart\t-\tasked\n\x1e\
    limit\t512\nselect\t0\t*\nstart\thtml\ta\nstart\thtml\tb\nstart\thtml\tc\nstart\thtml\td\nstart\thtml\te\nstart\thtml\tf\nstart\thtml\tg\nstart\thtml\th\nstart\thtml\ti\n\x1f\
    start\t0\nstart\t0\nstart\t0\nstart\t0\nstart\t0\nstart\t0\nstart\t0\nstart\t0\nrefused limit\n\x1e\
    limit\t512\nlimit\t511\nstart\thtml\ta\n\x1f\
    refused limit\n\x1e\
    limit\t511\nlimit\t512\nstart\thtml\ta\n\x1f\
    start\t-\n\x1e\
    limit\t0\nstart\thtml\tbr\nend\tbr\nstart\tsvg/\tpath\ndrop\tsvg\tg\n\x1f\
    start\t-\nend\t-\nstart\t-\tasked\ndropped\n\x1e\
    tries\nselect\t0\t[a*=\"\"]\nselect\t1\t:not([a*=\"\"])\nstart\thtml\tp\ta=x\n\x1f\
    start\t1\tasked\ttries 2 2\n\x1e\
    esi\nselect\t0\t*\nstart\thtml\tesi:include\nstart\thtml\tESI:INCLUDE\nend\tesi:include\n\x1f\
    start\t0/\nstart\t0\nend\t1\n\x1e\
    select\t0\t:nth-child(2)\ndrop\tsvg\tg\nstart\thtml\tp\nend\tg\n\x1f\
    dropped\nstart\t0\nend\t-\n\x1e\
    tries\nselect\t0\tcircle\nstart\tsvg/\tcircle\nend\tcircle\n\x1f\
    start\t0/\tasked\ttries 1 0\nend\t-\n\x1e\
    select\t0\ta[href]\nstart\thtml\ta\thref=http://example.com\nstart\thtml\ta\nstart\thtml\tdiv\n\x1f\
    start\t0\tasked\nstart\t-\tasked\nstart\t-\n\x1e\
    select\t0\t[b=\"c=d\"]\nselect\t1\t[e=\"\"]\nselect\t2\t[f]\nstart\tmathml\tmi\tb=c=d\te=\tf\nstart\tmathml/\tmi\tb\tE\n\x1f\
    start\t0,1,2\tasked\nstart\t1/\tasked\n\x1e\
    limit\t007\nselect\t0000000000004294967295\tp\nend\tp\n\x1f\
    end\t-\n";

/// A script with a bad line, and its output.
pub(super) const BAD: [(&str, &str); 32] = [
    ("end\tdiv\t\n", "bad line 1: form\n"),
    ("\n\n\n\n\n\n\n\n\n\n\nend\n", "bad line 12: form\n"),
    (
        "select\t0\tdiv + span\n",
        "bad line 1: UnsupportedCombinator(+)\n",
    ),
    ("select\t0\t\n", "bad line 1: EmptySelector\n"),
    ("start\thtml\n", "bad line 1: form\n"),
    ("esi\t\n", "bad line 1: form\n"),
    ("esi\r\n", "bad line 1: form\n"),
    ("tries\t\n", "bad line 1: form\n"),
    ("limit\t\n", "bad line 1: form\n"),
    ("limit\t5\t\n", "bad line 1: form\n"),
    ("limit\t18446744073709551616\n", "bad line 1: form\n"),
    ("limit\t-1\n", "bad line 1: form\n"),
    ("select\t0\n", "bad line 1: form\n"),
    ("select\t4294967296\tp\n", "bad line 1: form\n"),
    ("select\t0x1\tp\n", "bad line 1: form\n"),
    ("start\thtml\t\n", "bad line 1: form\n"),
    ("start\tHTML\tp\n", "bad line 1: form\n"),
    ("start\thtml//\tp\n", "bad line 1: form\n"),
    ("start\thtml\tp\t\n", "bad line 1: form\n"),
    ("start\thtml\tp\t=b\n", "bad line 1: form\n"),
    ("start\thtml\tp\ta\t\n", "bad line 1: form\n"),
    ("drop\tsvg\n", "bad line 1: form\n"),
    ("drop\n", "bad line 1: form\n"),
    ("end\n", "bad line 1: form\n"),
    ("START\thtml\tp\n", "bad line 1: form\n"),
    (" esi\n", "bad line 1: form\n"),
    ("end\tp\nlimit\t512\n", "bad line 2: form\n"),
    ("end\tp\nesi\n", "bad line 2: form\n"),
    ("end\tp\ntries\n", "bad line 2: form\n"),
    ("end\tp\nselect\t0\tp\n", "bad line 2: form\n"),
    ("end\tp\nselect\t0\tdiv +\n", "bad line 2: form\n"),
    (
        "\nselect\t0\tdiv ~ p\n",
        "bad line 2: UnsupportedCombinator(~)\n",
    ),
];
