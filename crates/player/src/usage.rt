// What `cluster --help` prints.
pub const USAGE: &str = "\
Plays a cluster of replicas of a key-value store from a script, and prints
each event with its answer.

  cluster FILE      plays the script in FILE
  cluster           plays the script on standard input
  cluster --help    prints this

./play builds the player where that is needed, and then takes the same words.

One line, one command. Empty lines and lines that begin with # are passed over.
I, J and F are replicas, from 0 up; K is a key, from 0 up. V is a value: two
small hexadecimal digits for each byte, or - for no bytes.

  open R K L W      opens R replicas (1 to 16) with K keys (1 to 4096), logs of
                    L puts (1 to 1024), and W puts that may wait (0 to 1024);
                    forgets what was open before
  I put K V         replica I puts the value V at key K
  I get K           what stands at key K of replica I
  I came K V F C..  a put comes to I: its key, its value, the replica F that
                    made it, and the counts C.. of what F had seen
  I has J C..       I hears that J has so many puts of each replica, and answers
                    which of its own J lacks
  I tell            how many puts of each replica I has
  I bytes HEX       these bytes come to I as an event
  I from J N        the N-th put that J made comes to I
  I asks J          I tells J what it has, and gets from J what it lacks
  round             each replica asks each other one

Answers:

  puts              done; behind it the puts to be sent, if there are any, each
                    as K V F C.., with ; between them
  none              nothing stands at the key
  value K V F C..   the put that stands at the key
  clock C..         the counts
  refused N PLACE   nothing has changed, for the reason N:
                    1  these are no event's bytes, from PLACE on; or the line
                       cannot be read, and PLACE is its number, from 0
                    2  a number is out of range, a value has more than 64 bytes,
                       or there is no such replica or put
                    3  I would have made more puts than it has
                    4  the log of I is full
                    5  the put would have to wait, and the queue of I is full
";
