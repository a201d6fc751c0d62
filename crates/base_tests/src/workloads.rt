//! The workload of one number beside what another program makes of it.

use work_gen::make;

/// The first item of number 7, with what stands before it.
const FIRST: &str =
    "{\"items\":[{\"link\":\"https://e.example/?q=1&r=2\",\"n\":145,\"text\":\" Käse\",\"who\":\"x y\"},";

/// The last item of number 7, with what stands after it.
const LAST: &str = ",{\"link\":\"/a\",\"n\":90,\"text\":\" x y\",\"who\":\"x y\"}]}";

/// The last message of the source, to its end.
const LAST_MESSAGE: &str =
    "<p>{msg desc=\"199\"}{plural $n}{case 1}one of 199{default}{$n} of 199{/plural}{/msg}</p>
{/template}
";

#[test]
fn workload_of_seven(rt: HostRuntime) {
    match make(rt.alloc(), 7) {
        Ok(made) => {
            assert!(rt; made.json.text().starts_with(FIRST));
            assert!(rt; made.json.text().ends_with(LAST));
            assert_eq!(rt; made.json.text().len(), 265_057);
            assert_eq!(rt; made.sources.items().len(), 1);
            for source in made.sources.items() {
                assert!(rt; source.text().ends_with(LAST_MESSAGE));
                assert_eq!(rt; source.text().len(), 32_973);
            }
            assert_eq!(rt; made.entry.text(), "gen.main");
        }
        Err(_) => assert!(rt; false),
    }
}
