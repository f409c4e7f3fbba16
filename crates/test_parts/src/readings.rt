//! Texts that are read, and texts that are refused for each cause: a wrong definition, with its code, fails.
//!
//! They are a part of 4,308 texts, and of 4,697 later ones, which draw signs, names and brackets at random. A slow model of the grammar,
//! written apart from this project, answered them. lol_html answers them alike wherever it has the same rules; it doesn't know `:is` and
//! `:where`. `SelectorsParser::parse` read each of them once, again with the same answers.

use lol_css::{SelectorError, SelectorsParser};
use std::alloc::Global;
use std::test::Fail;

const READ: &str = r##"-\
./**/a
.\=-
.a\"
:IS(*) a
:IS(*,*
:IS(.a,*
:IS(a,#a
:IS(|a,a
:is( *,a
:is(* ,*
:is(*,* 
:is(a) 
:is(a) *
:not( aa
:not(* 
:not(*),*
:not(*),a
:not(*,|*
:not([ a
:not(a#a)
:not(aaaa
:not(|*
:nth-child( 2  
:nth-child(+/**/n)
:nth-child(+0n-0)
:nth-child(+211
:nth-child(-1
:nth-child(-2  
:nth-child(-2 )
:nth-child(0000000000000000000001n)
:nth-child(1221
:nth-child(2147483647n - 2147483648)
:nth-child(2n )
:nth-child(n - 1)
:nth-child(n- 2147483648)
:nth-child(n-00000000000000000000001)
:nth-child(n-\31)
:where(*, a
:where(.a,a
[ |\\
[-a]
[\= 
[\=]
[a=b
[a|=\
[ii\,
[|\ a
[|\|]
\: 
\[ 
\[\|
a *
a .\ 
a,\+a
a-\1a
a-a>*
a.\
a.\+
a.\=1
a1>|\
a\[
a\\>a
a\a\"##;

const DANGLING_COMBINATOR: &str = r##":IS( *>#
:IS(a+,
:is(*>,#
:is(a>|,
:not( .a>
:not(* ]a
:not(a) |
:not(a> +
:not(a>,+
:not(|a |
:nth-child(1) -
:nth-child(n) -
:nth-child(n) 1
:nth-child(n) 2
:nth-child(n)+ 
:nth-child(n)+)
:nth-child(n)++
:nth-child(n)+,
:nth-child(n)+-
:where(*+>,
[ i]~
[a] =
\" ~
\,+|
a+=:
a+>:|
a+~(*
a,a~#
a-a+]
a>1 *
aa+,
aa~a>
a~ #.
a~]#
|\+>"##;

const EMPTY_SELECTOR: &str = r##")] |
+)*#
:IS(+:, 
:IS(>#,
:is(,.>#
:is(>.*,
:is(a, :where())
:not()*+[
:not(,#|.
:not(,., 
:not(,:) 
:not(,>#:
:not(> ,*
:not(>*]|
:not(]#, 
:nth-child(1),-
:nth-child(22),
:nth-child(n) ,
:nth-child(n), 
:nth-child(n),)
:nth-child(n),+
:nth-child(n),,
:nth-child(n),-
:nth-child(n),1
:nth-child(n),2
:where(>[, 
[ i],
[\i],
[i ],
]=-]
a(: ,
a(:#(
a,,1=
a,,a 
a1a-(
~-a1"##;

const INVALID_CLASS_NAME: &str = r##".#-[
.) (
.)##
..1+
.=-\
.]*~
.],"
.|+-
:IS(*.>,
:IS(.>),
:is(.##>
:is(a,.>
:not( ..*
:not( .|.
:not(*.>*
:not(. )+
:not(..|.
:not(.>>|
:not(.[)+
:nth-child(2).+
:nth-child(2).-
:nth-child(2)..
:nth-child(n). 
:nth-child(n).)
:nth-child(n).+
:nth-child(n).-
:nth-child(n)..
:where(.>,>
a .*#
a+.=
a..~]
a.:]\
a.[1
a>.)
a\*.="##;

const MISSING_ATTRIBUTE_NAME: &str = r##":IS( [,
:IS([) *
:is([,#.
:is([,>#
:not([):+
:not([)|:
:not([+[,
:not([[*#
:not(a[,:
:not(a[,a
:not(a[.*
:not(a[:*
:not(a[:>
:not(a[:|
:not(a[>a
:not(|a[.
:where([),>
[ =\
[ ~\
[""\,
["a|1
["~i]
[)=1
[+~~
[,=1a
[-*a
[="*|
[>]|
[~+=
[~\=,
a+[(#
a[#]]
a[,:
aa[:
|*[,"##;

const NAMESPACED_SELECTOR: &str = r##":IS(a|*,
:IS(a|,:
:is(a|,)
:is(a|,.
:not(*>a|
:not([*|a]):root
:not(a [*|b])
:not(a|+)
:not(a|.)
:not(a|.,
:not(a|]
:not(a|]:
:not(a|a]
:not(a||*
:not(a||+
:not(a||[
:not(a||]
:where(a|,>
[*|a]:root
[\*|"
[\1|*
[aa|~
[a|1
[i1||
\)|a
\+| 
a + [*|b]
a| ,(
a|">1
a|#|
a|(a
a|))~
a|,b
a|1=,
a||>:"##;

const UNEXPECTED_END: &str = r##"*::,
:
:IS(*.,*
:IS(.),a
:is(.,#>
:is(:,#>
:not( a>[
:not([|]*
:nth-child() ee
:nth-child())n1
:nth-child()++,
:nth-child(),-e
:nth-child()-,
:nth-child()1-
:nth-child()2),
:nth-child()n..
:nth-child()n2)
:nth-child(22).
:nth-child(n +)
:nth-child(n -)
:nth-child(n+  
:nth-child(n+))
:nth-child(n- )
:nth-last-child(
:nth-last-child(1) + .
:where(:,*>
[\,=]
[] ]"
[]"1*
[]**=
[]-|
a  a.
a ~:,
a+aa.
a:,:1"##;

const UNEXPECTED_TOKEN: &str = r##"#\]*
:IS(| [>
:IS(|#*,
:is(a*,>
:is(a]),
:not( |.]
:not(|>>*
:not(|]*.
:nth-child(2+-e
:nth-child(2147483648n-
:nth-child(e  ,
:nth-child(n + 1.0)
:nth-child(n - -1)
:nth-child(n - 2147483649
:nth-child(n- +1)
:nth-child(n- -1)
:nth-child(n-1 2)
:nth-last-child(x)
:where( |>*
[a]1=
[i]""
[i]|1
[i]|i
[ia]*
\1) 
a"=1
a">:a
a*=(+
a,|1>
a1]=*
a=:"~
a@
a\-"
|*=
|:,,"##;

const UNEXPECTED_TOKEN_IN_ATTRIBUTE: &str = r##":IS([a>
:IS([|,#
:is([*#>
:is([|[>
:not([a)>
:not([a,)
:not([|||
:not(a[*#
:not(a[*+
:not(a[*:
:not(a[a+
:not(a[a,
:not(a[| 
:where([* ,
[ i~ 
[*":
[*"]
[*a]
[*a||
[\i~~
[\~,*
[a i
[a~"
[a~/**/=b]
[i*~~
[|:=
[|a,|
[|a~a
[||)
[|~-
a>[a[
a[*)-
a[*+=
a[aa+
a[|~-"##;

const SIBLING_STEPS: &str = r##"*+\[
*+\a
*+a 
:IS(*)+*
:is(a)+*
:nth-child(1)+e
:nth-child(1)+n
:nth-child(2)+e
:nth-child(2)+n
:nth-child(n)+e
:nth-child(n)+n
:where(*)+a
:where(a)+a
[*|a] + b
\:+\
\=+\
\\+\
\]+a
\|+\
\~+*
a + b, c ~ d
a+*#\
a+*>\
a+\1a
a+\>
a+\| 
a+a a
a-+aa
a1+*
a>*+\
a\)+*
a\|+*
aa+ *
aa+#a"##;

const LATER_SIBLING_STEPS: &str = r##"*~\a
*~|*
--~*
\(~\
\,~\
\-~\
\.~*
\[~*
a.a~*
a1~*
a>a~\
a\1~a
aa-~a
aa~a-
a~ \*
a~#\)
a~*
a~.\1
a~.\\
a~a-
a~a1a
a~a>a
a~a\
a~a\"
a~a\*
a~a\~
a~aa 
a~aaa
a~|--
a~|\"##;

const UNSUPPORTED_PSEUDO_CLASS_OR_ELEMENT: &str = r##":*.
:..,
::""
:=.>
:IS( :>]
:IS(a,:+
:\"[
:a" 
:first-child(
:first-child()
:is(:>**
:is(:],>
:not(*:#+
:not(: aa
:not(::+a
:not(:>|
:not(:] 
:not(:|:
:not([*|b] a)
:not(a + b)
:not/**/(a)
:nth-child
:root
:root[*|a]
:where(:+:>
a,:\|
a-:a>
a: #=
a:#",
a:):]
a:=+|
a:]\]
a:a|:
a:~#"##;

/// Whether each line is answered so.
fn all_answer(alloc: Global, texts: &str, cause: Option<SelectorError>) -> bool {
    texts
        .split('\n')
        .all(|text| SelectorsParser::parse(alloc, text).err() == cause)
}

/// Texts, and the cause for which each of their lines is refused.
const ANSWERS: [(&str, Option<SelectorError>); 12] = [
    (READ, None),
    (DANGLING_COMBINATOR, Some(SelectorError::DanglingCombinator)),
    (EMPTY_SELECTOR, Some(SelectorError::EmptySelector)),
    (INVALID_CLASS_NAME, Some(SelectorError::InvalidClassName)),
    (
        MISSING_ATTRIBUTE_NAME,
        Some(SelectorError::MissingAttributeName),
    ),
    (NAMESPACED_SELECTOR, Some(SelectorError::NamespacedSelector)),
    (UNEXPECTED_END, Some(SelectorError::UnexpectedEnd)),
    (UNEXPECTED_TOKEN, Some(SelectorError::UnexpectedToken)),
    (
        UNEXPECTED_TOKEN_IN_ATTRIBUTE,
        Some(SelectorError::UnexpectedTokenInAttribute),
    ),
    (
        SIBLING_STEPS,
        Some(SelectorError::UnsupportedCombinator('+')),
    ),
    (
        LATER_SIBLING_STEPS,
        Some(SelectorError::UnsupportedCombinator('~')),
    ),
    (
        UNSUPPORTED_PSEUDO_CLASS_OR_ELEMENT,
        Some(SelectorError::UnsupportedPseudoClassOrElement),
    ),
];

#[test]
fn are_read_as_the_model_reads_them(rt: HostRuntime) -> Result<(), Fail> {
    for (texts, cause) in &ANSWERS {
        assert!(rt; all_answer(rt.alloc(), texts, *cause), "{cause:?}");
    }
    Ok(())
}
