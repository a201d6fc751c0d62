//! Forms of Closure Templates, which are the rows of docs/from-closure.md: those that are left out, each with its
//! refusal, and those that are accepted.

use crate::running::{files_of, run_line};
use soy_top::Status;
use std::alloc::Global;

/// A row: the parameters, the body, and the position, number and word of the refusal; none where it is accepted.
type Form = (&'static str, &'static str, &'static str);

/// What stands before a template, and its refusal.
const BEFORE: &[(&str, &str)] = &[
    ("", "1:2: 4 Syntax"),
    ("{namespace t requirecss=\"a.b\"}\n", "1:14: 4 Syntax"),
    ("{namespace t cssbase=\"a.b\"}\n", "1:14: 4 Syntax"),
    ("{namespace t cssprefix=\"a\"}\n", "1:14: 4 Syntax"),
    ("{namespace t}\n{namespace u}\n", "2:2: 4 Syntax"),
    ("{namespace t}\nimport {n} from 'a.soy';\n", "2:1: 4 Syntax"),
    (
        "{namespace t}\nimport * as n from 'a.soy';\n",
        "2:1: 4 Syntax",
    ),
    ("{namespace t}\n{alias a.b}\n", "2:2: 4 Syntax"),
    ("{namespace t}\n{alias a.b as c}\n", "2:2: 4 Syntax"),
    ("{delpackage p}\n{namespace t}\n", "1:2: 4 Syntax"),
    ("{modname p}\n{namespace t}\n", "1:2: 4 Syntax"),
    (
        "{namespace t}\n{deltemplate a.b}\na\n{/deltemplate}\n",
        "2:2: 4 Syntax",
    ),
    (
        "{namespace t}\n{element n}\n<p></p>\n{/element}\n",
        "2:2: 4 Syntax",
    ),
    ("{namespace t}\n{const A = 1 /}\n", "2:2: 4 Syntax"),
    ("{namespace t}\n{export const A = 1 /}\n", "2:2: 4 Syntax"),
    (
        "{namespace t}\n{extern f: (x: int) => int}\n{/extern}\n",
        "2:2: 4 Syntax",
    ),
    ("{namespace t}\n{type A = int}\n", "2:2: 4 Syntax"),
    ("{namespace t}\n{export type A = int}\n", "2:2: 4 Syntax"),
    ("{namespace t}\na\n", "2:1: 4 Syntax"),
    ("// a\n{namespace t}\n/* b */\n/** c */\n", ""),
];

/// What stands after the name of a template, and its refusal.
const ATTRIBUTES: &[(&str, &str)] = &[
    ("kind=\"html\"", ""),
    ("kind=\"text\"", ""),
    ("kind=\"attributes\"", ""),
    ("visibility=\"private\"", ""),
    ("kind=\"uri\"", "2:18: 4 Syntax"),
    ("kind=\"trusted_resource_uri\"", "2:18: 4 Syntax"),
    ("kind=\"js\"", "2:18: 4 Syntax"),
    ("kind=\"css\"", "2:18: 4 Syntax"),
    ("kind=\"html<div>\"", "2:18: 4 Syntax"),
    ("visibility=\"public\"", "2:24: 4 Syntax"),
    ("autoescape=\"strict\"", "2:13: 4 Syntax"),
    ("stricthtml=\"false\"", "2:13: 4 Syntax"),
    ("modifiable=\"true\"", "2:13: 4 Syntax"),
    ("modifies=\"n\"", "2:13: 4 Syntax"),
    ("requirecss=\"a\"", "2:13: 4 Syntax"),
    ("whitespace=\"preserve\"", "2:13: 4 Syntax"),
    ("component=\"true\"", "2:13: 4 Syntax"),
];

/// Parameters.
const HEADS: &[Form] = &[
    ("{@param x: string = 'a'}", "{$x}", "3:19: 4 Syntax"),
    ("{@param x = 'a'}", "{$x}", "3:11: 4 Syntax"),
    ("{@param x?: string}", "a", "3:10: 4 Syntax"),
    ("{@inject x: string}", "{$x}", "3:3: 4 Syntax"),
    ("{@state x: int = 1}", "a", "3:3: 4 Syntax"),
    ("{@attribute id: string}", "a", "3:3: 4 Syntax"),
    ("{@attribute *}", "a", "3:3: 4 Syntax"),
    ("/** @param x The text. */", "{$x}", "4:2: 7 Unknown"),
    ("a {@param x: string}", "{$x}", "3:4: 4 Syntax"),
    ("{@param? x: string}", "{$x ?: 1}", ""),
    ("{@param x: string}", "{let $y: 1 /}a", ""),
    (
        "{@param x: string}",
        "<script nonce=\"{$x}\">a</script>",
        "",
    ),
    ("{@param l: list<int>}", "{if $l[0] != null}a{/if}", ""),
];

/// Commands, and print directives.
const COMMANDS: &[Form] = &[
    ("{@param x: string}", "{print $x}", ""),
    (
        "{@param x: string}",
        "{if $x}a{elseif $x == 'b'}c{else}d{/if}",
        "",
    ),
    (
        "{@param x: string}",
        "{switch $x}{case 'a', 'b'}a{default}b{/switch}",
        "",
    ),
    (
        "{@param l: list<int>}",
        "{for $x, $i in $l}{$i}{$x}{/for}",
        "",
    ),
    ("", "{for $i in range(3)}a{/for}", "4:12: 4 Syntax"),
    ("", "{for $i in range(1, 10, 2)}a{/for}", "4:12: 4 Syntax"),
    (
        "{@param l: list<int>}",
        "{foreach $x in $l}a{/foreach}",
        "4:2: 4 Syntax",
    ),
    (
        "{@param l: list<int>}",
        "{for $x in $l}a{ifempty}b{/for}",
        "4:17: 4 Syntax",
    ),
    ("{@param x: string}", "{let $y: $x + '!' /}{$y}", ""),
    (
        "{@param x: string}",
        "{let $y kind=\"html\"}<b>{$x}</b>{/let}{$y}",
        "",
    ),
    ("{@param x: string}", "{let $y}a{/let}", "4:8: 4 Syntax"),
    ("{@param x: string}", "{let $y = $x /}", "4:9: 4 Syntax"),
    (
        "{@param x: string}",
        "{let $y kind=\"uri\"}/a{/let}",
        "4:14: 4 Syntax",
    ),
    (
        "{@param x: string}",
        "{let $y kind=\"js\"}a{/let}",
        "4:14: 4 Syntax",
    ),
    (
        "{@param x: string}",
        "{let $y kind=\"css\"}a{/let}",
        "4:14: 4 Syntax",
    ),
    (
        "{@param x: string}",
        "{let $y kind=\"trusted_resource_uri\"}a{/let}",
        "4:14: 4 Syntax",
    ),
    ("{@param n: int}", "{call .m}{param n: 1 /}{/call}", ""),
    ("{@param n: int}", "{call m data=\"all\" /}", ""),
    (
        "{@param x: string}",
        "{call m}{param x}a{/param}{/call}",
        "4:17: 4 Syntax",
    ),
    (
        "{@param r: [x: string]}",
        "{call m data=\"$r\" /}",
        "4:14: 4 Syntax",
    ),
    ("{@param x: string}", "{call $x /}", "4:7: 4 Syntax"),
    (
        "{@param x: string}",
        "{call m variant=\"'a'\" /}",
        "4:9: 4 Syntax",
    ),
    ("{@param x: string}", "{call m(x: $x) /}", "4:8: 4 Syntax"),
    ("{@param x: string}", "{m(x: $x)}", "4:2: 4 Syntax"),
    ("{@param x: string}", "<{m()}/>", "4:3: 4 Syntax"),
    ("{@param x: string}", "{delcall a.b /}", "4:2: 4 Syntax"),
    ("", "a{sp}{nil}{lb}{rb}{nbsp}{\\n}{\\r}{\\t}", ""),
    ("", "a{zwnj}", "4:3: 4 Syntax"),
    ("", "{literal}{ a } // b{/literal}", ""),
    ("{@param x: string}", "{{$x}}", "4:1: 3 Lex"),
    ("", "<p class=\"{css('a')}\">a</p>", "4:12: 4 Syntax"),
    ("", "<p class=\"{css a}\">a</p>", "4:12: 4 Syntax"),
    ("", "{xid('a')}", "4:2: 4 Syntax"),
    ("", "{xid a}", "4:2: 4 Syntax"),
    ("", "{log}a{/log}", "4:2: 4 Syntax"),
    ("", "{debugger}", "4:2: 4 Syntax"),
    (
        "{@param x: string}",
        "{velog $x}<p>a</p>{/velog}",
        "4:2: 4 Syntax",
    ),
    ("{@param x: string}", "<p {key $x}>a</p>", "4:5: 4 Syntax"),
    ("", "<p {skip}>a</p>", "4:5: 4 Syntax"),
    ("{@param x: string}", "{eval $x /}", "4:2: 4 Syntax"),
    (
        "{@param l: list<int>}",
        "{for $x in $l}{break}{/for}",
        "4:16: 4 Syntax",
    ),
    ("{@param x: string}", "{await $x}a{/await}", "4:2: 4 Syntax"),
    ("{@param x: string}", "{$x|id}", "4:4: 4 Syntax"),
    ("{@param x: string}", "{$x|noAutoescape}", "4:4: 4 Syntax"),
    ("{@param x: string}", "{$x|escapeUri}", "4:4: 4 Syntax"),
    (
        "{@param x: string}",
        "{$x|insertWordBreaks:8}",
        "4:4: 4 Syntax",
    ),
    ("{@param x: string}", "{$x|bidiSpanWrap}", "4:4: 4 Syntax"),
    (
        "{@param x: string}",
        "{$x|bidiUnicodeWrap}",
        "4:4: 4 Syntax",
    ),
    (
        "{@param x: string}",
        "{$x|truncate:8, false}",
        "4:4: 4 Syntax",
    ),
    (
        "{@param x: string}",
        "{$x|changeNewlineToBr}",
        "4:4: 4 Syntax",
    ),
    ("{@param x: string}", "{$x|cleanHtml}", "4:4: 4 Syntax"),
    (
        "{@param n: int}",
        "{$n|formatNum:'decimal'}",
        "4:4: 4 Syntax",
    ),
];

/// Types of parameters.
const TYPES: &[Form] = &[
    (
        "{@param a: null|bool|int}{@param b: list<string>}{@param c: map<string, int>}{@param d: [a: int]}",
        "{$a}",
        "",
    ),
    ("{@param h: html}{@param at: attributes|null}", "{$h}", ""),
    ("{@param h: list<html>}", "a", "3:1: 8 Type"),
    ("{@param h: html|string}", "a", "3:1: 8 Type"),
    ("{@param u: uri}", "a", "3:12: 8 Type"),
    ("{@param u: trusted_resource_uri}", "a", "3:12: 8 Type"),
    ("{@param u: js}", "a", "3:12: 8 Type"),
    ("{@param u: css}", "a", "3:12: 8 Type"),
    ("{@param u: html<div>}", "a", "3:16: 4 Syntax"),
    ("{@param u: html<?>}", "a", "3:16: 4 Syntax"),
    ("{@param f: float}", "a", "3:12: 8 Type"),
    ("{@param f: number}", "a", "3:12: 8 Type"),
    ("{@param f: any}", "a", "3:12: 8 Type"),
    ("{@param f: ?}", "a", "3:12: 4 Syntax"),
    ("{@param f: undefined}", "a", "3:12: 8 Type"),
    ("{@param f: never}", "a", "3:12: 8 Type"),
    ("{@param p: Person}", "a", "3:12: 8 Type"),
    ("{@param p: my.Person}", "a", "3:12: 8 Type"),
    ("{@param p: gbigint}", "a", "3:12: 8 Type"),
    ("{@param p: ve_data}", "a", "3:12: 8 Type"),
    ("{@param p: ve<Person>}", "a", "3:12: 8 Type"),
    ("{@param s: set<int>}", "a", "3:12: 8 Type"),
    ("{@param s: iterable<int>}", "a", "3:12: 8 Type"),
    (
        "{@param s: legacy_object_map<string, int>}",
        "a",
        "3:12: 8 Type",
    ),
    ("{@param s: Pick<Person, 'a'>}", "a", "3:12: 8 Type"),
    ("{@param s: Person['a']}", "a", "3:12: 8 Type"),
    ("{@param s: map<int, string>}", "a", "3:16: 4 Syntax"),
    ("{@param s: list}", "a", "3:12: 8 Type"),
    ("{@param s: [a?: int]}", "a", "3:14: 4 Syntax"),
    ("{@param s: []}", "a", "3:13: 4 Syntax"),
    ("{@param s: (x: int) => int}", "a", "3:12: 4 Syntax"),
    ("{@param s: template (x: int) => html}", "a", "3:12: 8 Type"),
    ("{@param s: template}", "a", "3:12: 8 Type"),
];

/// Expressions.
const EXPRESSIONS: &[Form] = &[
    ("", "{null}{true}{7}{'a'}{-1}", ""),
    ("", "{1.5}", "4:4: 4 Syntax"),
    ("", "{1e3}", "4:3: 4 Syntax"),
    ("", "{0x1F}", "4:3: 4 Syntax"),
    ("", "{9007199254740992}", "4:2: 3 Lex"),
    ("", "{\"a\"}", "4:2: 4 Syntax"),
    ("", "{`a`}", "4:2: 3 Lex"),
    ("", "{undefined}", "4:2: 4 Syntax"),
    (
        "{@param r: [a: int, l: list<int>]|null}",
        "{$r?.a}{$r?.l?[0]}",
        "",
    ),
    ("{@param r: [a: int]|null}", "{$r.a}", "4:2: 8 Type"),
    ("{@param x: string}", "{$x!}", "4:4: 3 Lex"),
    ("{@param x: string}", "{$x as string}", "4:5: 4 Syntax"),
    (
        "{@param x: string}",
        "{$x instanceof string}",
        "4:5: 4 Syntax",
    ),
    (
        "{@param n: int}",
        "{-$n * 2 + 7 % 3 - 1}{not ($n < 1) and $n <= 2 or $n > 3 ? $n >= 4 : $n != 5}{$n ?? 1}",
        "",
    ),
    ("{@param n: int}", "{$n === 1}", "4:7: 4 Syntax"),
    ("{@param n: int}", "{$n !== 1}", "4:7: 4 Syntax"),
    ("{@param n: int}", "{$n && 1}", "4:5: 3 Lex"),
    ("{@param n: int}", "{$n || 1}", "4:5: 4 Syntax"),
    ("{@param n: int}", "{!$n}", "4:2: 3 Lex"),
    ("{@param n: int}", "{$n / 2}", "4:5: 3 Lex"),
    ("{@param n: int}", "{$n << 2}", "4:6: 4 Syntax"),
    ("{@param n: int}", "{$n >> 2}", "4:6: 4 Syntax"),
    ("{@param n: int}", "{$n & 2}", "4:5: 3 Lex"),
    ("{@param n: int}", "{$n | 2}", "4:5: 4 Syntax"),
    ("{@param n: int}", "{$n ^ 2}", "4:5: 3 Lex"),
    ("{@param n: int}", "{7 % $n}", "4:2: 8 Type"),
    ("", "{1 + true}", "4:2: 8 Type"),
    ("{@param n: int}", "{'a' + $n}", ""),
    ("", "{for $x in [1, 2]}a{/for}", "4:12: 4 Syntax"),
    (
        "{@param l: list<int>}",
        "{for $x in [...$l]}a{/for}",
        "4:12: 4 Syntax",
    ),
    ("", "{let $m: ['a': 1] /}", "4:10: 4 Syntax"),
    ("", "{let $m: map('a': 1) /}", "4:10: 4 Syntax"),
    ("", "{let $m: record(a: 1) /}", "4:10: 4 Syntax"),
    (
        "{@param l: list<int>}",
        "{for $x in [$y + 1 for $y in $l]}a{/for}",
        "4:12: 4 Syntax",
    ),
    ("", "{let $m: Person(name: 'a') /}", "4:10: 4 Syntax"),
    ("{@param l: list<int>}", "{length($l)}", "4:2: 4 Syntax"),
    ("{@param l: list<int>}", "{$l.length()}", "4:11: 4 Syntax"),
    ("{@param l: list<int>}", "{$l.length}", "4:2: 8 Type"),
    (
        "{@param l: list<int>}",
        "{for $x in $l}{if isFirst($x)}a{/if}{/for}",
        "4:19: 4 Syntax",
    ),
    (
        "{@param l: list<int>}",
        "{for $x in $l}{index($x)}{/for}",
        "4:16: 4 Syntax",
    ),
    (
        "{@param m: map<string, int>}",
        "{for $k in mapKeys($m)}a{/for}",
        "4:12: 4 Syntax",
    ),
    (
        "{@param x: string}",
        "{if isNonnull($x)}a{/if}",
        "4:5: 4 Syntax",
    ),
    ("{@param x: string}", "{checkNotNull($x)}", "4:2: 4 Syntax"),
    (
        "{@param x: string}",
        "{if strContains($x, 'a')}a{/if}",
        "4:5: 4 Syntax",
    ),
    ("{@param n: int}", "{round($n)}", "4:2: 4 Syntax"),
    (
        "",
        "<html dir=\"{bidiGlobalDir() < 0 ? 'rtl' : 'ltr'}\"></html>",
        "4:13: 4 Syntax",
    ),
    (
        "{@param x: string}",
        "<p {bidiDirAttr($x)}>a</p>",
        "4:5: 4 Syntax",
    ),
    (
        "",
        "<p style=\"margin-{bidiStartEdge()}: 1px\">a</p>",
        "4:19: 4 Syntax",
    ),
    ("", "{$ij.x}", "4:2: 7 Unknown"),
    ("", "{my.GLOBAL}", "4:2: 4 Syntax"),
    ("{@param l: list<int>}", "{$l}", "4:1: 20 Kind"),
    ("{@param m: map<string, int>}", "{$m}", "4:1: 20 Kind"),
    ("{@param r: [a: int]}", "{$r}", "4:1: 20 Kind"),
];

/// Messages.
const MESSAGES: &[Form] = &[
    (
        "{@param x: string}",
        "{msg desc=\"d\" meaning=\"m\"}a <b>{$x phname=\"WHO\"}</b>{fallbackmsg desc=\"e\"}b{/msg}",
        "",
    ),
    (
        "{@param x: string}",
        "<p title=\"{msg desc=\"d\"}a {$x}{/msg}\">a</p>",
        "",
    ),
    (
        "",
        "{msg desc=\"d\"}a{fallbackmsg desc=\"e\"}b{fallbackmsg desc=\"f\"}c{/msg}",
        "4:40: 4 Syntax",
    ),
    ("", "{msg}a{/msg}", "4:5: 4 Syntax"),
    (
        "",
        "{msg desc=\"d\" hidden=\"true\"}a{/msg}",
        "4:15: 4 Syntax",
    ),
    (
        "{@param x: string}",
        "{msg desc=\"d\" genders=\"$x\"}a{/msg}",
        "4:15: 4 Syntax",
    ),
    (
        "",
        "{msg desc=\"d\" alternateId=\"1\"}a{/msg}",
        "4:15: 4 Syntax",
    ),
    ("", "{msg desc=\"d\"}<b phname=\"A\">b</b>{/msg}", ""),
    (
        "{@param x: string}",
        "{msg desc=\"d\"}{$x phname=\"A\" phex=\"b\"}{/msg}",
        "4:30: 4 Syntax",
    ),
    (
        "{@param n: int}",
        "{msg desc=\"d\"}{plural $n offset=\"1\"}{case 0}a{default}b{/plural}{/msg}",
        "",
    ),
    (
        "{@param x: string}",
        "{msg desc=\"d\"}{select $x}{case 'f'}a{default}b{/select}{/msg}",
        "",
    ),
    (
        "{@param x: string}{@param n: int}",
        "{msg desc=\"d\"}{select $x}{case 'f'}{plural $n}{default}a{/plural}{default}b{/select}{/msg}",
        "",
    ),
    (
        "{@param n: int}",
        "{msg desc=\"d\"}{plural $n}{case 0}a{/plural}{/msg}",
        "4:36: 4 Syntax",
    ),
    (
        "{@param n: int}",
        "{msg desc=\"d\"}a{plural $n}{default}a{/plural}{/msg}",
        "4:17: 4 Syntax",
    ),
    (
        "{@param n: int}",
        "{msg desc=\"d\"}{plural $n offset=\"1\"}{default}{remainder($n)}{/plural}{/msg}",
        "4:47: 4 Syntax",
    ),
    ("", "{msg desc=\"d\"}{call m /}{/msg}", "4:16: 4 Syntax"),
    (
        "{@param n: int}",
        "{msg desc=\"d\"}{if $n}a{/if}{/msg}",
        "4:16: 4 Syntax",
    ),
    (
        "{@param l: list<int>}",
        "{msg desc=\"d\"}{for $x in $l}a{/for}{/msg}",
        "4:16: 4 Syntax",
    ),
    (
        "{@param n: int}",
        "{msg desc=\"d\"}{switch $n}{default}a{/switch}{/msg}",
        "4:16: 4 Syntax",
    ),
    (
        "{@param n: int}",
        "{msg desc=\"d\"}{let $a: 1 /}a{/msg}",
        "4:16: 4 Syntax",
    ),
    (
        "{@param n: int}",
        "{msg desc=\"d\"}{msg desc=\"e\"}a{/msg}{/msg}",
        "4:16: 4 Syntax",
    ),
    ("{@param n: int}", "{msgWithId($x)}", "4:2: 4 Syntax"),
];

/// Where a value may stand, and what HTML, scripts and styles may have.
const PLACES: &[Form] = &[
    (
        "{@param x: string}",
        "<title>{$x}</title><textarea>{$x}</textarea><a href=\"{$x}\" title=\"{$x}\">{$x}</a>",
        "",
    ),
    (
        "{@param x: string}",
        "<p style=\"color: {$x}\">a</p><style>p {lb} color: {$x} {rb}</style>",
        "",
    ),
    (
        "{@param x: string}",
        "<script>var a = {$x}, b = \"{$x}\";</script>",
        "",
    ),
    ("{@param x: string}", "<{$x}>a", "4:2: 14 InName"),
    ("{@param n: int}", "<h{$n}>a", "4:3: 14 InName"),
    ("{@param x: string}", "<p {$x}>a</p>", "4:4: 11 Place"),
    (
        "{@param x: string}",
        "<p data-{$x}=\"a\">a</p>",
        "4:9: 14 InName",
    ),
    (
        "{@param x: string}",
        "{let $at kind=\"attributes\"}id=\"{$x}\"{/let}<p {$at}>a</p>",
        "",
    ),
    ("{@param x: string}", "<p id={$x}>a</p>", "4:7: 11 Place"),
    (
        "{@param x: string}",
        "<p onclick=\"f({$x})\">a</p>",
        "4:15: 11 Place",
    ),
    (
        "{@param x: string}",
        "<img srcset=\"{$x}\">",
        "4:14: 11 Place",
    ),
    (
        "{@param x: string}",
        "<iframe srcdoc=\"{$x}\"></iframe>",
        "4:17: 11 Place",
    ),
    ("{@param x: string}", "<!--{$x}-->", "4:5: 11 Place"),
    (
        "{@param x: string}",
        "{let $h kind=\"html\"}a{/let}<p title=\"{$h}\">a</p>",
        "4:38: 11 Place",
    ),
    (
        "{@param x: string}",
        "{let $h kind=\"attributes\"}id=\"a\"{/let}{$h}",
        "4:39: 11 Place",
    ),
    ("{@param x: string}", "<style>{$x}</style>", "4:8: 11 Place"),
    (
        "{@param x: string}",
        "<style>{$x} {lb} color: red {rb}</style>",
        "4:8: 11 Place",
    ),
    (
        "{@param n: int}",
        "<p style=\"width: {$n}px\">a</p>",
        "4:22: 18 Script",
    ),
    ("", "<script>var a = b / 2;</script>", "4:1: 18 Script"),
    ("", "<script>var a = /b/;</script>", "4:1: 18 Script"),
    ("", "<script>var a = `b`;</script>", "4:1: 18 Script"),
    ("", "<script>a <!-- b</script>", "4:1: 18 Script"),
    ("", "<svg></svg>", "4:1: 14 InName"),
    ("", "<math></math>", "4:1: 14 InName"),
    ("", "<plaintext>", "4:1: 14 InName"),
    (
        "{@param x: string}",
        "<a href=\"{$x}{$x}\">a</a>",
        "4:14: 19 UriStart",
    ),
    (
        "{@param x: string}",
        "<a href=\"javascript:{$x}\">a</a>",
        "4:21: 19 UriStart",
    ),
    (
        "{@param x: string}",
        "<a href=\"tel:{$x}\">a</a>",
        "4:14: 19 UriStart",
    ),
    ("{@param x: string}", "<a href=\"{$x}/{$x}\">a</a>", ""),
    ("", "&hearts;", "4:1: 17 Reference"),
    ("", "a &c", "4:1: 16 Ampersand"),
    ("", "<p", "5:1: 13 EndState"),
    ("", "<p title=\"a", "5:1: 13 EndState"),
    ("", "<!-- a", "5:1: 13 EndState"),
    ("", "<script>a", "5:1: 13 EndState"),
    ("", "<style>a", "5:1: 13 EndState"),
    (
        "{@param x: string}",
        "<a {if $x}href=\"{/if}{$x}\">a</a>",
        "4:22: 12 Mixed",
    ),
    ("", "<p><b>a</p>", ""),
];

/// Whether `check` answers a file by this refusal, or by ok where there is none; none where memory ran out.
fn is_refused_so(alloc: Global, file: &str, refusal: &str) -> Option<bool> {
    let files = files_of(alloc, &[("t.soy", file)])?;
    let ended = run_line(alloc, "check - t.soy", files)?;
    if refusal.is_empty() {
        return Some(ended.is(Status::Done, b"ok\n", b""));
    }
    let line = format!(in alloc; "t.soy:{refusal}\n").ok()?;
    Some(ended.is(Status::Refused, b"", line.as_bytes()))
}

/// The same of a form.
fn is_answered_so(alloc: Global, form: &Form) -> Option<bool> {
    let (params, body, refusal) = *form;
    let file = format!(in alloc;
        "{{namespace t}}\n{{template m}}\n{params}\n{body}\n{{/template}}\n"
    );
    let file = file.ok()?;
    is_refused_so(alloc, file.as_str(), refusal)
}

/// The same of what stands before a template.
fn is_head_answered_so(alloc: Global, head: &str, refusal: &str) -> Option<bool> {
    let file = format!(in alloc; "{head}{{template m}}\na\n{{/template}}\n").ok()?;
    is_refused_so(alloc, file.as_str(), refusal)
}

/// The same of what stands after the name of a template without a body.
fn is_attribute_answered_so(alloc: Global, attribute: &str, refusal: &str) -> Option<bool> {
    let file = format!(in alloc;
        "{{namespace t}}\n{{template m {attribute}}}\n{{/template}}\n"
    ).ok()?;
    is_refused_so(alloc, file.as_str(), refusal)
}

#[test]
fn heads_of_closure(rt: HostRuntime) {
    for (head, refusal) in BEFORE {
        let holds = is_head_answered_so(rt.alloc(), head, refusal);
        assert_eq!(rt; holds, Some(true), "{head}");
    }
    for (attribute, refusal) in ATTRIBUTES {
        let holds = is_attribute_answered_so(rt.alloc(), attribute, refusal);
        assert_eq!(rt; holds, Some(true), "{attribute}");
    }
}

#[test]
fn forms_of_closure(rt: HostRuntime) {
    for forms in [HEADS, COMMANDS, TYPES, EXPRESSIONS, MESSAGES, PLACES] {
        for form in forms {
            let holds = is_answered_so(rt.alloc(), form);
            assert_eq!(rt; holds, Some(true), "{} {}", form.0, form.1);
        }
    }
}
