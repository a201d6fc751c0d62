//! The page of a shop: control flow, a message, attributes, URIs, script and style in three bundles.

use crate::running::{Row, is_answered};
use soy_top::Status;

const PAGE: &str = "{namespace shop.page}\n\
     \n\
     /** The page of one article. */\n\
     {template main}\n  \
     {@param title: string}\n  \
     {@param user: [name: string, url: string]}\n  \
     {@param comments: list<[who: string, text: string, link: string]>}\n  \
     {@param? note: string}\n  \
     {@param count: int}\n  \
     {@param color: string}\n  \
     <!DOCTYPE html>\n  \
     <html>\n  \
     <head>\n  \
     <title>{$title}</title>\n  \
     <style>\n    \
     h1 {lb} color: {$color}; {rb}\n  \
     </style>\n  \
     </head>\n  \
     <body>\n  \
     <h1>{$title}</h1>\n  \
     {if $note}<p class=\"note\">{$note}</p>{/if}\n  \
     <p>{msg desc=\"How many comments\"}{plural $count}{case 0}No comments{case 1}One comment{default}\
     {$count} comments{/plural}{/msg}</p>\n  \
     <ul>\n  \
     {for $c in $comments}\n    \
     <li><a href=\"{$c.link}\">{$c.who}</a>: {$c.text}</li>\n  \
     {/for}\n  \
     </ul>\n  \
     <script>var user = {$user.name};</script>\n  \
     </body>\n  \
     </html>\n\
     {/template}\n";

const ARTICLE: &str =
    "{\"title\":\"Tea & cake\",\"user\":{\"name\":\"Ann\",\"url\":\"/u/1\"},\"count\":2,\
     \"color\":\"#336699\",\n \
     \"comments\":[{\"who\":\"דן\",\"text\":\"Nice!\",\"link\":\"https://a.example/?p=1&q=2\"},\n             \
     {\"who\":\"Bo\",\"text\":\"\",\"link\":\"javascript:x\"}]}\n";

/// The page in each bundle, and its message.
pub(crate) const SHOP: &[Row] = &[
    (
        "shop-page, -",
        "render shop.page.main d.json - p.soy",
        &[("p.soy", PAGE), ("d.json", ARTICLE)],
        Status::Done,
        "<!DOCTYPE html><html><head><title>Tea &amp; cake</title><style>h1 { color: #336699; }</style></head>\
         <body><h1><span dir=\"ltr\">Tea &amp; cake</span></h1><p><span dir=\"ltr\">2</span> comments</p><ul>\
         <li><a href=\"https://a.example/?p=1&amp;q=2\"><span dir=\"rtl\">דן</span></a>: \
         <span dir=\"ltr\">Nice!</span></li><li><a href=\"about:invalid#zSoyz\"><span dir=\"ltr\">Bo</span>\
         </a>: <span dir=\"ltr\"></span></li></ul><script>var user = 'Ann';</script></body></html>",
        "",
    ),
    (
        "shop-page, ltr bundle",
        "render shop.page.main d.json b.json p.soy",
        &[
            ("p.soy", PAGE),
            (
                "b.json",
                "{\"dir\":\"ltr\",\"plural\":{\"one\":\"i = 0,1\"},\"messages\":{\"42828a833767d42d\":\"{COUNT, \
                 plural, =0 {Aucun commentaire} one {# commentaire} other {# commentaires}}\"}}",
            ),
            ("d.json", ARTICLE),
        ],
        Status::Done,
        "<!DOCTYPE html><html><head><title>Tea &amp; cake</title><style>h1 { color: #336699; }</style></head>\
         <body><h1><span dir=\"ltr\">Tea &amp; cake</span></h1><p><span dir=\"ltr\">2</span> commentaires</p>\
         <ul><li><a href=\"https://a.example/?p=1&amp;q=2\"><span dir=\"rtl\">דן</span></a>: \
         <span dir=\"ltr\">Nice!</span></li><li><a href=\"about:invalid#zSoyz\"><span dir=\"ltr\">Bo</span>\
         </a>: <span dir=\"ltr\"></span></li></ul><script>var user = 'Ann';</script></body></html>",
        "",
    ),
    (
        "shop-page, rtl bundle",
        "render shop.page.main d.json b.json p.soy",
        &[
            ("p.soy", PAGE),
            ("b.json", "{\"dir\":\"rtl\",\"messages\":{}}"),
            ("d.json", ARTICLE),
        ],
        Status::Done,
        "<!DOCTYPE html><html><head><title>Tea &amp; cake</title><style>h1 { color: #336699; }</style></head>\
         <body><h1><span dir=\"ltr\">Tea &amp; cake</span></h1><p><span dir=\"ltr\">2</span> comments</p><ul>\
         <li><a href=\"https://a.example/?p=1&amp;q=2\"><span dir=\"rtl\">דן</span></a>: \
         <span dir=\"ltr\">Nice!</span></li><li><a href=\"about:invalid#zSoyz\"><span dir=\"ltr\">Bo</span>\
         </a>: <span dir=\"rtl\"></span></li></ul><script>var user = 'Ann';</script></body></html>",
        "",
    ),
    (
        "shop-page, canonical text",
        "extract p.soy",
        &[("p.soy", PAGE)],
        Status::Done,
        "{\"messages\":[{\"desc\":\"How many comments\",\"id\":\"42828a833767d42d\",\"meaning\":\"\",\
         \"text\":\"{COUNT, plural, =0 {No comments} =1 {One comment} other {{COUNT} comments}}\"}]}\n",
        "",
    ),
];

#[test]
fn rows_of_the_shop(rt: HostRuntime) {
    for row in SHOP {
        assert!(rt; is_answered(rt.alloc(), row), "row {}", row.0);
    }
}
