//! What `main` prints by itself.

pub const HELP: &str = "\
teevol looks at the volume of an image, and changes nothing.

usage: teevol info IMAGE          tell what the volume holds: a line for each object, by regions
       teevol verify IMAGE        compute every tag of the volume anew
       teevol cat IMAGE REGION ID write the content of an object
       teevol blocks IMAGE        tell which place each block that is in use holds
       teevol --help              print this text; so do -h, help and a command with --help
       teevol --version           print the version

With --json as the last word each writes one object of JSON.

IMAGE.ctr is the image's counter, and IMAGE.key its key. REGION is the name of a host, or a number below
16. ID is an identifier in hexadecimal digits, as info writes it.

exit statuses: 0 told, 1 a tag differs or a leaf breaks a rule, 2 there is no such object, 64 faulty command
line, 67 the board holds no volume that fits, 71 out of memory, 74 cannot write, 75 the files are no board

docs/TEEVOL.md describes what is written.
";

pub const VERSION: &str = "teevol 0.2.0\n";
