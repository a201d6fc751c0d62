//! Rows of bodies and files with their canonical source.

use soy_format::format;
use soy_lexer::lex;
use soy_parser::parse;
use std::alloc::Global;

/// A body, and the line that is written for it.
type BodyRow = (&'static str, &'static str);

const TEXTS: &[BodyRow] = &[
    ("{literal}{ // }{/literal}", "{lb} /{nil}/ {rb}"),
    ("a{\\n}b{\\r}c{\\t}d{nil}e", "a{\\n}b{\\r}c{\\t}de"),
    ("{nil}", "{nil}"),
    ("{literal}{/literal}", "{nil}"),
    ("a{nbsp}b", "a\u{a0}b"),
    ("/{nil}*/{nil}/", "/{nil}*/{nil}/"),
    ("http://x", "http:/{nil}/x"),
    ("{sp}{$x}{sp}", "{sp}{$x}{sp}"),
    ("{sp}", "{sp}"),
    ("{literal}  {/literal}", "{sp}{sp}"),
    ("{literal}   {/literal}", "{sp} {sp}"),
    ("{$x} {$y}", "{$x} {$y}"),
];

const COMMANDS: &[BodyRow] = &[
    (
        "{if ($x)}a{elseif not($y)}b{else}c{/if}",
        "{if $x}a{elseif not $y}b{else}c{/if}",
    ),
    ("{if $x}{else}{/if}", "{if $x}{else}{/if}"),
    (
        "{switch $x} {case 1,2}a {case 'b'}{default}c{/switch}",
        "{switch $x}{case 1, 2}a {case 'b'}{default}c{/switch}",
    ),
    (
        "{for $a,$i in $l}{$a}{/for}",
        "{for $a, $i in $l}{$a}{/for}",
    ),
    (
        "{let $a:1/}{let $b kind=\"text\"}c{/let}",
        "{let $a: 1 /}{let $b kind=\"text\"}c{/let}",
    ),
    ("{call .n/}{call n}{/call}", "{call n /}{call n /}"),
    (
        "{call a . b data=\"all\"}{/call}",
        "{call a.b data=\"all\" /}",
    ),
    (
        "{call n data=\"all\"}{param p:1/} {param q kind=\"html\"}b{/param}{/call}",
        "{call n data=\"all\"}{param p: 1 /}{param q kind=\"html\"}b{/param}{/call}",
    ),
];

const MESSAGES: &[BodyRow] = &[
    (
        "{msg meaning=\"\" desc=\"d\"}a{/msg}",
        "{msg desc=\"d\"}a{/msg}",
    ),
    (
        "{msg meaning=\"m\" desc=\"d\"}a{$x phname=\"N\"}{fallbackmsg desc=\"\"}b{/msg}",
        "{msg desc=\"d\" meaning=\"m\"}a{$x phname=\"N\"}{fallbackmsg desc=\"\"}b{/msg}",
    ),
    (
        "{msg desc=\"d\"} {plural $n offset=\"0\"} {case 1,2}a{default}b{/plural} {/msg}",
        "{msg desc=\"d\"}{plural $n}{case 1}a{case 2}a{default}b{/plural}{/msg}",
    ),
    (
        "{msg desc=\"d\"}{plural $n+1 offset=\"1\"}{default}{select $s}{case 'a','b'}c{default}d{/select}{/plural}\
         {/msg}",
        "{msg desc=\"d\"}{plural $n + 1 offset=\"1\"}{default}{select $s}{case 'a'}c{case 'b'}c{default}d{/select}\
         {/plural}{/msg}",
    ),
];

const EXPRESSIONS: &[BodyRow] = &[
    (
        "{print $x}{print 1}{null}{true}",
        "{$x}{print 1}{print null}{print true}",
    ),
    ("{$a.b?.c[1]?[$d]}", "{$a.b?.c[1]?[$d]}"),
    (
        "{($a+1).b}{(-1).b}{(-$a).b}",
        "{print ($a + 1).b}{print (-1).b}{print (-$a).b}",
    ),
    (
        "{- -1}{-(-(1))}{-(1+2)}{-$a.b}",
        "{print - -1}{print - -1}{print -(1 + 2)}{print -$a.b}",
    ),
    (
        "{not not $a}{not($a==1)}{-not $a}{not -$a}",
        "{print not not $a}{print not ($a == 1)}{print -not $a}{print not -$a}",
    ),
    (
        "{1-2-3}{1-(2-3)}{(1-2)*3}{1-2*3}",
        "{print 1 - 2 - 3}{print 1 - (2 - 3)}{print (1 - 2) * 3}{print 1 - 2 * 3}",
    ),
    (
        "{1<2==true}{1<(2==true)}{$a and $b or $c}{$a and ($b or $c)}",
        "{print 1 < 2 == true}{print 1 < (2 == true)}{$a and $b or $c}{$a and ($b or $c)}",
    ),
    (
        "{$a or $b?:$c}{($a?:$b)or $c}",
        "{$a or $b ?: $c}{print ($a ?: $b) or $c}",
    ),
    (
        "{$a?:$b?:$c}{($a?:$b)?:$c}{$a??$b}",
        "{$a ?: $b ?: $c}{print ($a ?: $b) ?: $c}{$a ?: $b}",
    ),
    (
        "{$a?$b:$c?$d:$e}{($a?$b:$c)?$d:$e}{$a?($b?:1):2}",
        "{$a ? $b : $c ? $d : $e}{print ($a ? $b : $c) ? $d : $e}{$a ? $b ?: 1 : 2}",
    ),
    (
        "{'a\\'b\\\\\\n\\r\\t\\b\\f\\u0000\\u00e9\"'}",
        "{print 'a\\'b\\\\\\n\\r\\t\\b\\f\\u0000é\"'}",
    ),
    (
        "{$x%2}{($x)}{(($x).y)}{1 != 2}{1>=2}",
        "{$x % 2}{$x}{$x.y}{print 1 != 2}{print 1 >= 2}",
    ),
];

/// A file, and what is written for it.
const FILES: &[(&str, &str)] = &[
    ("{namespace t}", "{namespace t}\n"),
    (
        "/* a */ {namespace  a . b} // c\n{template .m}{/template}",
        "{namespace a.b}\n\n{template m}\n{/template}\n",
    ),
    (
        "{namespace t}{template m visibility=\"private\" kind=\"text\"}{@param x:list<map<string,int|null>>}\n\
         {@param? y : [a:int,b:html|null]}\n\n  a // b\n  {$x}\n{/template}",
        "{namespace t}\n\n{template m kind=\"text\" visibility=\"private\"}\n\
         {@param x: list<map<string, int|null>>}\n{@param? y: [a: int, b: html|null]}\na{$x}\n{/template}\n",
    ),
    (
        "{namespace t}{template m kind=\"html\"}{/template}{template n kind=\"attributes\"} {/template}",
        "{namespace t}\n\n{template m}\n{/template}\n\n{template n kind=\"attributes\"}\n{sp}\n{/template}\n",
    ),
    (
        "{namespace t}{template m}{msg desc=\"a\nb\"}{/msg}{/template}",
        "{namespace t}\n\n{template m}\n{msg desc=\"a\nb\"}{/msg}\n{/template}\n",
    ),
];

/// What is written for a file; none where the file has a fault, or memory ran out.
fn written(alloc: Global, file: &str) -> Option<String> {
    let tokens = lex(alloc, file, 0).ok()?;
    let tree = parse(alloc, tokens.as_slice(), 0).ok()?;
    format(alloc, &tree).ok()
}

/// Whether this is written for a file, and is written again for itself.
fn is_written(alloc: Global, file: &str, text: &str) -> bool {
    match (written(alloc, file), written(alloc, text)) {
        (Some(first), Some(second)) => first.as_str() == text && second.as_str() == text,
        _ => false,
    }
}

/// Whether this line is written for the body of a template.
fn is_line(alloc: Global, body: &str, line: &str) -> bool {
    let file = format!(in alloc; "{{namespace t}}{{template m}}{body}{{/template}}");
    let text = format!(in alloc; "{{namespace t}}\n\n{{template m}}\n{line}\n{{/template}}\n");
    match (file, text) {
        (Ok(file), Ok(text)) => is_written(alloc, file.as_str(), text.as_str()),
        _ => false,
    }
}

#[test]
fn rows_of_texts(rt: HostRuntime) {
    for (body, line) in TEXTS {
        assert!(rt; is_line(rt.alloc(), body, line), "{body}");
    }
}

#[test]
fn rows_of_commands(rt: HostRuntime) {
    for (body, line) in COMMANDS {
        assert!(rt; is_line(rt.alloc(), body, line), "{body}");
    }
}

#[test]
fn rows_of_messages(rt: HostRuntime) {
    for (body, line) in MESSAGES {
        assert!(rt; is_line(rt.alloc(), body, line), "{body}");
    }
}

#[test]
fn rows_of_expressions(rt: HostRuntime) {
    for (body, line) in EXPRESSIONS {
        assert!(rt; is_line(rt.alloc(), body, line), "{body}");
    }
}

#[test]
fn rows_of_files(rt: HostRuntime) {
    for (file, text) in FILES {
        assert!(rt; is_written(rt.alloc(), file, text), "{file}");
    }
}
