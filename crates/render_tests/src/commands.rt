//! Rows of commands, each in pulls of 1, 3 and 4,096 bytes.

use crate::pages::Row;
use crate::pulling::{End, ends_so};

/// Commands.
const COMMANDS: &[Row] = &[
    Row {
        name: "static text",
        params: "",
        body: "a{sp}{nil}b{lb}{rb}",
        others: "",
        json: "{}",
        bundle: "",
        text: "a b{}",
    },
    Row {
        name: "a string of the data",
        params: "{@param x: string}",
        body: "{$x}",
        others: "",
        json: "{\"x\":\"a<b\"}",
        bundle: "",
        text: "<span dir=\"ltr\">a&lt;b</span>",
    },
    Row {
        name: "an empty string",
        params: "{@param x: string}",
        body: "<b>{$x}</b>",
        others: "",
        json: "{\"x\":\"\"}",
        bundle: "",
        text: "<b><span dir=\"ltr\"></span></b>",
    },
    Row {
        name: "a string that is made",
        params: "{@param x: string}",
        body: "{$x + 1}",
        others: "",
        json: "{\"x\":\"a<b\"}",
        bundle: "",
        text: "<span dir=\"ltr\">a&lt;b1</span>",
    },
    Row {
        name: "an int, a bool and null",
        params: "{@param n: int}",
        body: "{$n}{$n > 1}{$n < 1}{null}",
        others: "",
        json: "{\"n\":-12}",
        bundle: "",
        text: "<span dir=\"ltr\">-12</span><span dir=\"ltr\">false</span><span dir=\"ltr\">true</span><span dir=\"ltr\
            \">null</span>",
    },
    Row {
        name: "members, items and entries",
        params: "{@param r: [a: [b: string]]}{@param l: list<string>}{@param m: map<string, string>}",
        body: "{$r.a.b}{$l[1]}{$m['k']}{$m['z'] ?: 'none'}",
        others: "",
        json: "{\"r\":{\"a\":{\"b\":\"q\"}},\"l\":[\"0\",\"1\"],\"m\":{\"k\":\"v\"}}",
        bundle: "",
        text: "<span dir=\"ltr\">q</span><span dir=\"ltr\">1</span><span dir=\"ltr\">v</span><span dir=\"ltr\">none</s\
            pan>",
    },
    Row {
        name: "a part where there is none",
        params: "{@param? r: [a: string]}{@param x: string}",
        body: "{$r?.a}{$r ? $x : 'c'}",
        others: "",
        json: "{\"x\":\"a<b\"}",
        bundle: "",
        text: "<span dir=\"ltr\">null</span><span dir=\"ltr\">c</span>",
    },
    Row {
        name: "an if",
        params: "{@param l: list<int>}",
        body: "{for $n in $l}{if $n == 1}a{elseif $n == 2}b{else}c{/if}{if $n > 2}d{/if}{/for}",
        others: "",
        json: "{\"l\":[1,2,3]}",
        bundle: "",
        text: "abcd",
    },
    Row {
        name: "a switch",
        params: "{@param l: list<string>}",
        body: "{for $s in $l}{switch $s}{case 'a', 'b'}1{case 'c'}2{default}3{/switch}{switch $s}{case 'c'}4{/switch}{\
            /for}",
        others: "",
        json: "{\"l\":[\"b\",\"c\",\"d\"]}",
        bundle: "",
        text: "1243",
    },
    Row {
        name: "a loop",
        params: "{@param l: list<[k: string, l: list<int>]>}",
        body: "{for $x in $l}{$x.k}{for $y, $j in $x.l}{$j}{$y}{/for};{/for}",
        others: "",
        json: "{\"l\":[{\"k\":\"a\",\"l\":[5,6]},{\"k\":\"b\",\"l\":[]},{\"k\":\"c\",\"l\":[7]}]}",
        bundle: "",
        text: "<span dir=\"ltr\">a</span><span dir=\"ltr\">0</span><span dir=\"ltr\">5</span><span dir=\"ltr\">1</span\
            ><span dir=\"ltr\">6</span>;<span dir=\"ltr\">b</span>;<span dir=\"ltr\">c</span><span dir=\"ltr\">0</spa\
            n><span dir=\"ltr\">7</span>;",
    },
    Row {
        name: "a loop's index",
        params: "{@param l: list<int>}",
        body: "{for $x, $i in $l}{if $i}, {/if}{$x}{/for}",
        others: "",
        json: "{\"l\":[5,6]}",
        bundle: "",
        text: "<span dir=\"ltr\">5</span>, <span dir=\"ltr\">6</span>",
    },
    Row {
        name: "a let",
        params: "{@param x: string}",
        body: "{let $y: $x + '!' /}{let $z: $x /}{$y}{$z}",
        others: "",
        json: "{\"x\":\"a<b\"}",
        bundle: "",
        text: "<span dir=\"ltr\">a&lt;b!</span><span dir=\"ltr\">a&lt;b</span>",
    },
    Row {
        name: "a block of kind html",
        params: "{@param x: string}",
        body: "{let $b kind=\"html\"}<i>{$x}</i>{/let}{$b}{$b}",
        others: "",
        json: "{\"x\":\"q\"}",
        bundle: "",
        text: "<i><span dir=\"ltr\">q</span></i><i><span dir=\"ltr\">q</span></i>",
    },
    Row {
        name: "a block of kind attributes",
        params: "{@param x: string}",
        body: "{let $b kind=\"attributes\"}class=\"{$x}\" id=\"k\"{/let}<p {$b}></p>",
        others: "",
        json: "{\"x\":\"a\\\"b\"}",
        bundle: "",
        text: "<p class=\"a&quot;b\" id=\"k\"></p>",
    },
    Row {
        name: "a block of kind text",
        params: "{@param x: string}",
        body: "{let $b kind=\"text\"}{$x}{if true}&{$x}{/if}{/let}<p title=\"{$b}\">{$b}</p>",
        others: "",
        json: "{\"x\":\"a<b\"}",
        bundle: "",
        text: "<p title=\"a&lt;b&amp;a&lt;b\"><span dir=\"ltr\">a&lt;b&amp;a&lt;b</span></p>",
    },
    Row {
        name: "a text block in another",
        params: "{@param x: string}",
        body: "{let $a kind=\"text\"}1{let $b kind=\"text\"}{$x}2{/let}{$b}3{$b}{/let}{$a}",
        others: "",
        json: "{\"x\":\"a<b\"}",
        bundle: "",
        text: "<span dir=\"ltr\">1a&lt;b23a&lt;b2</span>",
    },
    Row {
        name: "a block that is printed in a loop",
        params: "{@param x: string}{@param l: list<int>}",
        body: "{let $y: 'out' /}{let $b kind=\"html\"}{$y}{$x}{/let}{for $n, $i in $l}{let $z: $n + 1 /}{$b}{$z}{$i}{/\
            for}",
        others: "",
        json: "{\"x\":\"a\",\"l\":[5,6]}",
        bundle: "",
        text: "<span dir=\"ltr\">out</span><span dir=\"ltr\">a</span><span dir=\"ltr\">6</span><span dir=\"ltr\">0</sp\
            an><span dir=\"ltr\">out</span><span dir=\"ltr\">a</span><span dir=\"ltr\">7</span><span dir=\"ltr\">1</s\
            pan>",
    },
    Row {
        name: "a call",
        params: "{@param n: int}",
        body: "{call a /}{call b}{param x: 1 + 1 /}{/call}{call b}{param x: $n /}{/call}",
        others: "{template a}A{/template}\n{template b}{@param x: int}<p>{$x}</p>{/template}\n",
        json: "{\"n\":3}",
        bundle: "",
        text: "A<p><span dir=\"ltr\">2</span></p><p><span dir=\"ltr\">3</span></p>",
    },
    Row {
        name: "a call with all data",
        params: "{@param x: string}{@param? n: int}",
        body: "{call a data=\"all\" /}{call a data=\"all\"}{param x: 'given' /}{/call}",
        others: "{template a}{@param x: string}{@param? n: int}{$x}{$n}{/template}\n",
        json: "{\"x\":\"own\",\"n\":4}",
        bundle: "",
        text: "<span dir=\"ltr\">own</span><span dir=\"ltr\">4</span><span dir=\"ltr\">given</span><span dir=\"ltr\">4\
            </span>",
    },
    Row {
        name: "blocks that are handed",
        params: "{@param x: string}",
        body: "{call a}{param h kind=\"html\"}<u>{$x}</u>{/param}{param t kind=\"text\"}{$x}&{/param}{param k kind=\"a\
            ttributes\"}id=\"{$x}\"{/param}{/call}",
        others: "{template a}{@param h: html}{@param t: string}{@param k: attributes}<p {$k}>{$h}{$t}</p>{$h}{/templat\
            e}\n",
        json: "{\"x\":\"a<b\"}",
        bundle: "",
        text: "<p id=\"a&lt;b\"><u><span dir=\"ltr\">a&lt;b</span></u><span dir=\"ltr\">a&lt;b&amp;</span></p><u><span \
            dir=\"ltr\">a&lt;b</span></u>",
    },
    Row {
        name: "a call of kind text",
        params: "{@param x: string}",
        body: "<p title=\"{call a}{param x: $x /}{/call}\">{call a data=\"all\" /}</p>",
        others: "{template a kind=\"text\"}{@param x: string}[{$x}]{/template}\n",
        json: "{\"x\":\"a<b\"}",
        bundle: "",
        text: "<p title=\"[a&lt;b]\"><span dir=\"ltr\">[a&lt;b]</span></p>",
    },
    Row {
        name: "a call of kind attributes",
        params: "{@param x: string}",
        body: "<p {call a data=\"all\" /}>x</p>",
        others: "{template a kind=\"attributes\"}{@param x: string}class=\"{$x}\"{/template}\n",
        json: "{\"x\":\"a<b\"}",
        bundle: "",
        text: "<p class=\"a&lt;b\">x</p>",
    },
    Row {
        name: "a call in a text block",
        params: "{@param x: string}",
        body: "{let $b kind=\"text\"}{call a data=\"all\" /}-{call a data=\"all\" /}{/let}{$b}",
        others: "{template a kind=\"text\"}{@param x: string}[{$x}]{/template}\n",
        json: "{\"x\":\"a<b\"}",
        bundle: "",
        text: "<span dir=\"ltr\">[a&lt;b]-[a&lt;b]</span>",
    },
    Row {
        name: "a message",
        params: "{@param x: string}",
        body: "{msg desc=\"d\"}<b>love</b> {$x}{/msg}",
        others: "",
        json: "{\"x\":\"Ann\"}",
        bundle: "",
        text: "<b>love</b> <span dir=\"ltr\">Ann</span>",
    },
    Row {
        name: "a plural",
        params: "{@param l: list<int>}",
        body: "{for $n in $l}{msg desc=\"d\"}{plural $n}{case 0}none{case 1}one{default}{$n} all{/plural}{/msg};{/for}",
        others: "",
        json: "{\"l\":[0,1,2]}",
        bundle: "",
        text: "none;one;<span dir=\"ltr\">2</span> all;",
    },
    Row {
        name: "a select",
        params: "{@param l: list<string>}",
        body: "{for $s in $l}{msg desc=\"d\"}{select $s}{case 'f'}she{case 'm'}he{default}they{/select}{/msg};{/for}",
        others: "",
        json: "{\"l\":[\"f\",\"m\",\"\"]}",
        bundle: "",
        text: "she;he;they;",
    },
    Row {
        name: "a plural that is translated",
        params: "{@param l: list<int>}",
        body: "{for $n in $l}{msg desc=\"d\"}{plural $n}{case 1}one{default}{$n} all{/plural}{/msg};{/for}",
        others: "",
        json: "{\"l\":[0,1,2,5]}",
        bundle: "{\"dir\":\"rtl\",\"locale\":\"xx\",\"plural\":{\"zero\":\"n = 0\",\"one\":\"n = 1\",\"few\":\"n = 2..\
            4\"},\"messages\":{\"093840ef9db14bf4\":\"{N, plural, offset:1 =0 {exactly none} zero {zero #} one {one #\
            } other {other #}}\"}}",
        text: "exactly none;zero <span dir=\"ltr\">0</span>;one <span dir=\"ltr\">1</span>;other <span dir=\"ltr\">4</\
            span>;",
    },
    Row {
        name: "ordinals that are translated",
        params: "{@param l: list<int>}",
        body: "{for $n in $l}{msg desc=\"d\"}{plural $n}{case 1}one{default}{$n} all{/plural}{/msg};{/for}",
        others: "",
        json: "{\"l\":[1,21,11]}",
        bundle: "{\"dir\":\"ltr\",\"locale\":\"xx\",\"ordinal\":{\"one\":\"n % 10 = 1 and n % 100 != 11\"},\"messages\
            \":{\"093840ef9db14bf4\":\"{N, selectordinal, one {#st} other {#th}}\"}}",
        text: "<span dir=\"ltr\">1</span>st;<span dir=\"ltr\">21</span>st;<span dir=\"ltr\">11</span>th;",
    },
    Row {
        name: "a select that is translated",
        params: "{@param l: list<string>}",
        body: "{for $s in $l}{msg desc=\"d\"}{select $s}{case 'f'}she{default}they{/select}{/msg};{/for}",
        others: "",
        json: "{\"l\":[\"f\",\"m\"]}",
        bundle: "{\"dir\":\"ltr\",\"locale\":\"xx\",\"messages\":{\"45f6893ec345b40d\":\"{S, select, f {elle} other {i\
            ls}}\"}}",
        text: "elle;ils;",
    },
    Row {
        name: "text from right to left",
        params: "{@param x: string}",
        body: "{$x} (5)",
        others: "",
        json: "{\"x\":\"\u{5d0}\u{5d1}\"}",
        bundle: "",
        text: "<span dir=\"rtl\">\u{5d0}\u{5d1}</span> (5)",
    },
    Row {
        name: "a tab and isolates",
        params: "{@param x: string}",
        body: "{$x}",
        others: "",
        json: "{\"x\":\"a\\t\u{2067}b\u{2069}\u{2069}\"}",
        bundle: "",
        text: "<span dir=\"ltr\">a \u{2067}b\u{2069}</span>",
    },
];

#[test]
fn rows_of_commands(rt: HostRuntime) {
    for row in COMMANDS {
        assert!(rt; ends_so(rt.alloc(), row, End::Whole), "row {}", row.name);
    }
}
